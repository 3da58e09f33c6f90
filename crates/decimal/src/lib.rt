// Numbers in decimal.

#![tactic(auto)]

ghost use Rattle.std.specs.Prelude.{◌≡◌, ◌≤◌, length};
ghost use Rattle.calculus.specs.Overwrite.{overwrite};
ghost use Rattle.decimal.specs.Decimal.{digits};

// Writes the digits of a number, without leading zeros, and returns how many there are.
// By hand: there is no heap, and std writes digits to a formatter, which no lent slice is.
pub fn decimal(out: &mut [u8], n: u32) -> usize
    requires { length (digits n) ≤ length out.old }
    ensures count { result ≡ length (digits n) }
    ensures bytes { out.new ≡ overwrite (digits n) out.old }
{
    if n < 10 {
        out[0] = b'0' + n as u8;
        return 1;
    }
    let at = decimal(out, n / 10);
    out[at] = b'0' + (n % 10) as u8;
    at + 1
}
