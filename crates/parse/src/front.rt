// Reading from the front of bytes: what was read, and the bytes after it.
ghost use Rattle.std.specs.Prelude.{◌≡◌, ◌^◌, ◌≤◌, ◌<◌, length, take, drop, IfOk, MatchResult};
ghost use Rattle.calculus.specs.declared.refusal.Refusal.TheVariants.{CutShort};
ghost use Rattle.calculus.specs.Reading.{read, refused};
ghost use Rattle.parse.specs.Number.{read_number};

use super::number::number;
use calculus::refusal::Refusal;

// The bytes before index `len`, and the bytes from there.
pub fn read_part(bytes: &[u8], len: usize) -> Result<(&[u8], &[u8]), Refusal>
    ensures { MatchResult result
        (λ r. (len ≤ length bytes.now) × (r.0.now ≡ take len bytes.now) × (r.1.now ≡ drop len bytes.now))
        (λ why. (length bytes.now < len) × (why ≡ CutShort)) }
{
    bytes.split_at_checked(len).ok_or(Refusal::CutShort)
}

// The number in the first `width` bytes, and the bytes after them.
pub fn read_number(bytes: &[u8], width: usize) -> Result<(u32, &[u8]), Refusal>
    requires { width ≤ 4 }
    ensures read { MatchResult result
        (λ r. read_number width bytes.now ≡ read r.0 r.1.now)
        (λ why. read_number width bytes.now ≡ refused why) }
    ensures small { IfOk result (λ r. r.0 < 256 ^ width) }
{
    let (_, rest) = read_part(bytes, width)?;
    Ok((number(bytes, 0, width), rest))
}
