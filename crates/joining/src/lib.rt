// The checks of SDLC and of the byte-synchronous modes by one rule, of a text and of texts that are put together. Assumes nothing.
#![tactic(auto)]

ghost use Rattle.std.specs.Prelude.{◌≡◌};
ghost use Rattle.line.specs.Bits.{text_bits};
ghost use Rattle.line.specs.Check.{check_over};
ghost use Rattle.joining.specs.Rule.{sdlc_rule, synchronous_rule, check_by};
ghost use Rattle.joining.specs.Join.{joined_by, Joins};

use advance::advance;
use bytesync::polynomial_of;
use line::{ONES, SDLC, check_byte};

// How a check is made: its polynomial, what the register starts from, and what is turned over in it when it is sent.
#[derive(Clone, Copy)]
pub struct CheckRule {
    pub polynomial: u16,
    pub preset: u16,
    pub complement: u16,
}

impl CheckRule {
    // SDLC's.
    pub fn sdlc() -> CheckRule
        ensures { result ≡ sdlc_rule }
    {
        CheckRule {
            polynomial: SDLC,
            preset: ONES,
            complement: ONES,
        }
    }

    // That of Monosync and Bisync, over the polynomial that WR5 D2 chooses.
    pub fn synchronous(d2: bool) -> CheckRule
        ensures { result ≡ synchronous_rule d2 }
    {
        CheckRule {
            polynomial: polynomial_of(d2),
            preset: 0,
            complement: 0,
        }
    }
}

// The register after a text, over the polynomial p.
#[tactic(auto, using(crate::specs::Laws::Rule::text_over))]
pub fn check_text(p: u16, r: u16, text: &[u8]) -> u16
    ensures { result ≡ check_over p r (text_bits 8 text.now) }
{
    text.iter().fold(r, |x, v| check_byte(p, x, *v))
}

// The check of a text, worked out whole.
#[tactic(auto, unfolding(crate::specs::Rule::check_by))]
pub fn check_of(rule: CheckRule, text: &[u8]) -> u16
    ensures { result ≡ check_by rule text.now }
{
    check_text(rule.polynomial, rule.preset, text) ^ rule.complement
}

// The check of two texts put together, from the check of each; the second has k bytes.
#[tactic(auto, unfolding(crate::specs::Join::joined_by))]
pub fn joined(rule: CheckRule, heading: u16, body: u16, k: usize) -> u16
    ensures value { result ≡ joined_by rule heading body k }
    ensures joins { Joins rule heading body k result }
{
    let register = heading ^ rule.complement;
    let apart = register ^ rule.preset;
    body ^ advance(rule.polynomial, apart, k)
}
