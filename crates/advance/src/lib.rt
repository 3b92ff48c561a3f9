// The check register's advance over zero bytes, by halves: a multiplication modulo the polynomial. Assumes nothing.
#![tactic(auto)]

ghost use Rattle.std.specs.Prelude.{◌≡◌};
ghost use Rattle.advance.specs.Advance.{product, advanced};

use line::{check_byte, check_step};

// a times b modulo the polynomial p: one step by 0 for each place of b up to its highest. No `for` over all sixteen: every second product
// that `advance` asks for, below its first call, has b = 1.
fn product(p: u16, a: u16, b: u16) -> u16
    ensures { result ≡ product p a b }
{
    let mut sum = 0;
    let mut power = a;
    let mut rest = b;
    while 0 < rest {
        if rest % 2 == 1 {
            sum ^= power;
        }
        power = check_step(p, power, false);
        rest /= 2;
    }
    sum
}

// The register after k zero bytes: the advance of 1 over half of them, squared, is what the register is multiplied by.
pub fn advance(p: u16, r: u16, k: usize) -> u16
    ensures { result ≡ advanced p r k }
{
    if k == 0 {
        return r;
    }
    let half = advance(p, 1, k / 2);
    let even = product(p, half, half);
    if k % 2 == 0 {
        return product(p, even, r);
    }
    product(p, check_byte(p, even, 0), r)
}
