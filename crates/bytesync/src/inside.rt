// Most ticks, in a form of their own: while a byte has bits left, neither settings nor buffer have a part in a transmit tick; outside hunt, a
// bit that ends no character hands nothing over. It is small, so that the calls of a chip hold it in themselves (bench/README.md).
// Assumes nothing.
ghost use Rattle.std.specs.Prelude.{◌≡◌};
ghost use Rattle.bytesync.specs.Within.{byte_left, byte_rest, within, tick_within, count_after, hears_on, moved_on};

use crate::hearing::shift_in;
use crate::{BlockUnit, Reception, Synced};
use shared::Shared;

impl BlockUnit {
    // The bits of a byte that are still to be sent; 0 in another unit. LineUnit of sdlc has these two likewise.
    fn byte_left(self) -> u8
        ensures { result ≡ byte_left self }
    {
        if let BlockUnit::Byte(n, _) = self {
            n
        } else {
            0
        }
    }

    // What is left of a byte to shift out; 0 in another unit.
    fn byte_rest(self) -> u8
        ensures { result ≡ byte_rest self }
    {
        if let BlockUnit::Byte(_, v) = self {
            v
        } else {
            0
        }
    }
}

// A byte has bits left.
pub fn within(u: BlockUnit) -> bool
    ensures { result ≡ within u }
{
    u.byte_left() != 0
}

// The tick, if so.
#[tactic(auto, unfolding(crate::specs::Within::tick_within), using(common::specs::Tools::tests))]
pub fn tick_within(u: BlockUnit, k: Shared) -> Synced
    ensures { result ≡ tick_within u k }
{
    let v = u.byte_rest();
    let unit = BlockUnit::Byte(u.byte_left().saturating_sub(1), v / 2);
    Synced::sent(v % 2 == 1, unit, k)
}

// The bits of a character with one more, as in listening.
fn count_after(n: u8) -> u8
    ensures { result ≡ count_after n }
{
    if n < 7 { n + 1 } else { 0 }
}

// The next bit ends no character, and hunt is off.
#[tactic(auto, unfolding(crate::specs::Within::hears_on))]
pub fn hears_within(r: Reception) -> bool
    ensures { result ≡ hears_on r }
{
    !r.hunt & (r.count < 7)
}

// What has been heard after it, if so.
#[tactic(auto, unfolding(crate::specs::Within::moved_on))]
pub fn hear_within(r: Reception, b: bool) -> Reception
    ensures { result ≡ moved_on r b }
{
    Reception {
        count: count_after(r.count),
        bits: shift_in(b, r.bits),
        hunt: false,
        ..r
    }
}
