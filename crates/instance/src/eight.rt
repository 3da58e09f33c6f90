// Eight words of a slice, one for each relation.
ghost use Rattle.std.specs.Prelude.{◌≡◌, ◌+◌, ◌≤◌, length, take, drop};
ghost use Rattle.std.proofs.Math.Seq.{paste};
ghost use Rattle.instance.specs.Header.{max_relations};

// The eight words from index `at`.
pub fn eight(words: &[u32], at: usize) -> [u32; 8]
    requires { at + max_relations ≤ length words.now }
    ensures { result ≡ take max_relations (drop at words.now) }
{
    let mut values = [0u32; 8];
    values.copy_from_slice(&words[at..at + 8]);
    values
}

// Writes eight words from index `at`; the other words stay.
pub fn put_eight(words: &mut [u32], at: usize, values: &[u32; 8])
    requires { at + max_relations ≤ length words.old }
    ensures { words.new ≡ paste words.old at values.now max_relations }
{
    words[at..at + 8].copy_from_slice(values);
}
