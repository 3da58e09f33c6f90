// What evaluation knows of an instance besides its words.

#![tactic(auto)]

ghost use Rattle.std.specs.Prelude.{◌≡◌, ◌<◌, true, replicate};
ghost use Rattle.instance.specs.Header.{arity_of, max_relations};
ghost use Rattle.known.specs.Known.{max_places, flag_words, count_in, arities_in, places_in};
ghost use Rattle.known.specs.Known.{flag_at, gap_at, Gap, Flagged};

// The flags stand 32 to a word, the first in its lowest bit. A walk passes over the places whose flag stands.
// The counts and the arities are two arrays, and no pairs: they are the header's, which C lends so.
#[derive(Drop)]
pub struct Known {
    // a relation's number of rows
    counts: [u32; 8],
    // a relation's number of columns
    arities: [u32; 8],
    // how many places a quantifier walks
    places: usize,
    flags: [u32; 153],
}

impl Known {
    // The row counts and the arities of a header, the number of places, and no flag.
    pub fn new(counts: &[u32; 8], arities: &[u32; 8], places: usize) -> Known
        ensures { result ≡ record {
          counts = counts.now;
          arities = arities.now;
          places = places;
          flags = replicate flag_words 0;
        } }
    {
        Known {
            counts: *counts,
            arities: *arities,
            places,
            flags: [0; 153],
        }
    }

    // The number of rows of a relation.
    pub fn count(&self, relation: usize) -> u32
        requires { relation < max_relations }
        ensures { result ≡ count_in self.now relation }
    {
        self.counts[relation]
    }

    pub fn arity(&self, relation: usize) -> usize
        requires { relation < max_relations }
        ensures { result ≡ arity_of (arities_in self.now) relation }
    {
        self.arities[relation] as usize
    }

    // How many places a quantifier walks.
    pub fn places(&self) -> usize
        ensures { result ≡ places_in self.now }
    {
        self.places
    }

    // Whether a walk passes over a place.
    pub fn passed(&self, place: usize) -> bool
        requires { place < max_places }
        ensures { result ≡ flag_at self.now place }
    {
        (self.flags[place / 32] >> (place % 32)) % 2 == 1
    }

    // How many places from one on are passed over, as far as its flag word tells: 0 if it is not passed over itself.
    pub fn gap(&self, place: usize) -> usize
        requires { place < max_places }
        ensures length { result ≡ gap_at self.now place }
        ensures gap { Gap self.now place result }
    {
        (self.flags[place / 32] >> (place % 32)).trailing_ones() as usize
    }

    // Passes over a place.
    pub fn pass(&mut self, place: usize)
        requires { place < max_places }
        ensures { Flagged self.old place true self.new }
    {
        self.flags[place / 32] |= 1 << (place % 32);
    }
}
