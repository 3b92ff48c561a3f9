// The rest of a byte in one loop. Assumes nothing.
ghost use Rattle.std.specs.Prelude.{◌≡◌, ◌≤◌, ◌<◌};
ghost use Rattle.feed.specs.Turns.{bits_on, through};

use crate::{Bits, Run};
use line::Insertion;
use sdlc::{Framer, LineUnit};

// The zero that is owed, if one is, and the next bit.
fn bits_on(x: Bits) -> Bits
    requires left_nonzero { 0 < x.left }
    requires ticks_bound { x.ticks ≤ 512 }
    ensures { result ≡ bits_on x }
{
    Bits {
        ticks: x.ticks + usize::from(x.insertion.owed) + 1,
        left: x.left - 1,
        rest: x.rest / 2,
        insertion: Insertion::counted(x.insertion.run, x.rest % 2 == 1),
    }
}

// The rest of a byte, bit by bit.
pub(crate) fn through(s: Framer) -> Run
    ensures { result ≡ through s }
{
    let left = s.unit.byte_left();
    let mut x = Bits {
        ticks: 0,
        left,
        rest: s.unit.byte_rest(),
        insertion: s.insertion,
    };
    for _ in 0..left {
        x = bits_on(x);
    }
    Run {
        ticks: x.ticks,
        framer: Framer {
            unit: LineUnit::Byte(x.left, x.rest),
            insertion: x.insertion,
            ..s
        },
    }
}
