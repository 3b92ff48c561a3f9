// Most receive ticks, in a form of their own: a bit of content behind a full delay that ends no character, no flag and no abort. It is small,
// so that the calls of a chip hold it in themselves (bench/README.md). Assumes nothing.
ghost use Rattle.std.specs.Prelude.{◌≡◌};
ghost use Rattle.sdlc.specs.Within.{fewer_than, ones_after, count_after, hears_on, moved_on};

use crate::{FLAG, FULL, INSERTED, LAST, ones_counted, shift_in};
use line::{SDLC, check_step};
use sdlc::{Chars, Content, Listener};

// So many ones may stand before such a bit.
fn fewer_than(b: bool) -> u8
    ensures { result ≡ fewer_than b }
{
    if b { FLAG } else { INSERTED }
}

// The ones in a row after a bit.
fn ones_after(b: bool, ones: u8) -> u8
    ensures { result ≡ ones_after ones b }
{
    if b { ones_counted(ones) } else { 0 }
}

// The bits of a character with one more. bytesync has this line too: in a crate below both it would be longer.
fn count_after(n: u8) -> u8
    ensures { result ≡ count_after n }
{
    if n < LAST { n + 1 } else { 0 }
}

// This bit is such a one.
#[tactic(auto, unfolding(sdlc::specs::Within::hears_on))]
pub fn hears_within(s: Listener, bit: bool) -> bool
    ensures { result ≡ hears_on s bit }
{
    let c = s.content;
    !s.broken
        & (!c.hunt
            & (!c.skip
                & ((c.ones < fewer_than(bit)) & (!(c.delay < FULL) & (c.chars.count < LAST)))))
}

// The receiver after it, if so.
#[tactic(auto, unfolding(sdlc::specs::Within::moved_on))]
pub fn hear_within(s: Listener, b: bool) -> Listener
    ensures { result ≡ moved_on s b }
{
    let was = s.content;
    let k = was.chars;
    let d = was.delay;
    let out = d / 64 % 2 == 1;
    let chars = Chars {
        count: count_after(k.count),
        part: shift_in(out, k.part),
        ..k
    };
    Listener {
        content: Content {
            hunt: false,
            skip: false,
            ones: ones_after(b, was.ones),
            delay: FULL + d % 64 * 2 + u8::from(b),
            chars,
        },
        check: check_step(SDLC, s.check, out),
        broken: s.broken,
    }
}
