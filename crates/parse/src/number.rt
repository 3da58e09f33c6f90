// Numbers in bytes, high byte first.
ghost use Rattle.std.specs.Prelude.{◌≡◌, true, ◌+◌, ◌^◌, ◌≤◌, ◌<◌, length, drop, get_or, MatchResult};
ghost use Rattle.calculus.specs.declared.refusal.Refusal.TheVariants.{CutShort};
ghost use Rattle.calculus.specs.Overwrite.{overwrite};
ghost use Rattle.calculus.specs.Reading.{read};
ghost use Rattle.parse.specs.Parse.{is_read};
ghost use Rattle.parse.specs.Number.{read_number, read_numbers, numbers_of};

use calculus::refusal::Refusal;

// The byte at index `at`, which is known to be there: `number` of width 1, without its loop.
pub fn byte(bytes: &[u8], at: usize) -> u32
    requires { at < length bytes.now }
    ensures { (result ≡ get_or bytes.now at 0) × (result < 256) }
{
    u32::from(bytes[at])
}

// The same for bytes that may end before the index.
pub fn byte_if_any(bytes: &[u8], at: usize) -> Result<u32, Refusal>
    ensures { MatchResult result
        (λ byte. (at < length bytes.now) × (byte ≡ get_or bytes.now at 0) × (byte < 256))
        (λ why. (length bytes.now ≤ at) × (why ≡ CutShort)) }
{
    bytes
        .get(at)
        .map(|byte| u32::from(*byte))
        .ok_or(Refusal::CutShort)
}

// The number in `width` bytes from index `at`. The bound of the width stands in the contracts, and in no type: it would
// be made and taken apart in one call.
pub fn number(bytes: &[u8], at: usize, width: usize) -> u32
    requires narrow { width ≤ 4 }
    requires within { at + width ≤ length bytes.now }
    ensures read { read_number width (drop at bytes.now) ≡ read result (drop (at + width) bytes.now) }
    ensures small { result < 256 ^ width }
{
    let mut number: u32 = 0;
    // By index: it says in which order the bytes are read.
    for i in 0..width {
        number = number * 256 + byte(bytes, at + i);
    }
    number
}

// Reads `count` numbers of `width` bytes each, from index `at`, and writes them to the front of a list.
pub fn numbers(out: &mut [u32], bytes: &[u8], at: usize, width: usize, count: usize)
    requires narrow { width ≤ 4 }
    requires within { at ≤ length bytes.now }
    requires reads { is_read (read_numbers width count (drop at bytes.now)) ≡ true }
    requires room { count ≤ length out.old }
    ensures { out.new ≡ overwrite (numbers_of width count (drop at bytes.now)) out.old }
{
    for (i, place) in out[..count].iter_mut().enumerate() {
        *place = number(bytes, at + i * width, width);
    }
}
