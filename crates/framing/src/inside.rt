// Most transmit ticks, in a form of their own: while a byte has bits left, neither settings nor buffer have a part in a tick. It is small, so
// that the calls of a chip and a station's loop hold it in themselves (bench/README.md). Assumes nothing.
ghost use Rattle.std.specs.Prelude.{◌≡◌};
ghost use Rattle.sdlc.specs.Within.{within, tick_within};

use crate::{byte_on, owed_zero};
use sdlc::{Framed, Framer};

// A byte has bits left.
pub fn within(f: Framer) -> bool
    ensures { result ≡ within f }
{
    f.unit.byte_left() != 0
}

// The tick, if so.
#[tactic(auto, unfolding(sdlc::specs::Within::tick_within))]
pub fn tick_within(f: Framer) -> Framed
    ensures { result ≡ tick_within f }
{
    if f.insertion.owed {
        return owed_zero(f);
    }
    byte_on(
        f.unit.byte_left(),
        f.unit.byte_rest(),
        f.insertion.run,
        f.shared,
    )
}
