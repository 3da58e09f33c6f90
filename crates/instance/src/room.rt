// Room for words in a slice.
ghost use Rattle.std.specs.Prelude.{◌≡◌};
ghost use Rattle.instance.specs.Room.{has_room};

use super::header::WORDS;

pub fn has_room(words: usize, slice: usize) -> bool
    ensures { result ≡ has_room words slice }
{
    words <= WORDS && words <= slice
}
