// SDLC's sender fed with the bytes of a note, from behind the flag that opens its frame to the last bit of the closing one. It is on, with the
// check included. Assumes nothing.
#![tactic(auto)]

mod through;

ghost use Rattle.std.specs.Prelude.{◌≡◌, false, ◌≤◌, length};
ghost use Rattle.whole.specs.Come.{good, to_come};
ghost use Rattle.whole.specs.Stage.{Stage};
ghost use Rattle.whole.specs.Start.{frame_ended};
ghost use Rattle.feed.specs.Feeding.{takes_byte, to_the_end, frame_fed};
ghost use Rattle.feed.specs.Turns.{supply_at, turn};

use crate::through::through;
use framing::{tick, within};
use line::{Insertion, LONGEST_NOTE};
use sdlc::{Framer, Framing, LineUnit, not_counted};
use shared::Shared;

// So many ticks have gone, and the sender after them.
#[derive(Clone, Copy)]
pub struct Run {
    pub ticks: usize,
    pub framer: Framer,
}

// The sender before a tick, and the place of the next byte to write.
#[derive(Clone, Copy)]
pub struct Place {
    pub framer: Framer,
    pub at: usize,
}

// The bits of a byte on their way, in numbers of their own that a loop holds in registers, and the ticks that went.
#[derive(Clone, Copy)]
pub struct Bits {
    pub ticks: usize,
    pub left: u8,
    pub rest: u8,
    pub insertion: Insertion,
}

// The sender's settings: on, and the check included.
fn sending() -> Framing
    ensures { result ≡ good }
{
    Framing {
        on: true,
        included: true,
    }
}

// RR0 D2: the buffer takes a byte.
fn takes_byte(s: Framer) -> bool
    ensures { result ≡ takes_byte s }
{
    match s.unit {
        LineUnit::Check(_, _) => false,
        LineUnit::Mark | LineUnit::Flag(_) | LineUnit::Byte(_, _) | LineUnit::Abort(_) => {
            s.shared.buffer.is_none()
        }
    }
}

// The next byte, if there is one and the buffer takes it.
#[tactic(auto, unfolding(crate::specs::Turns::supply_at), using(common::specs::Tools::tests))]
fn supply_at(s: Framer, rest: &[u8], i: usize) -> Place
    ensures { result ≡ supply_at s rest.now i }
{
    if i < rest.len() && takes_byte(s) {
        return Place {
            framer: Framer {
                shared: s.shared.filled(rest[i]),
                ..s
            },
            at: i + 1,
        };
    }
    Place { framer: s, at: i }
}

// The closing flag's last bit is sent.
fn frame_ended(s: Framer) -> bool
    ensures { result ≡ frame_ended s }
{
    match s.unit {
        LineUnit::Flag(n) => s.shared.latch & (n == 0),
        LineUnit::Mark | LineUnit::Byte(_, _) | LineUnit::Check(_, _) | LineUnit::Abort(_) => false,
    }
}

// Up to the next look at the buffer: the rest of the byte that is on its way, or one tick.
#[tactic(auto, unfolding(crate::specs::Turns::turn))]
fn turn(s: Framer) -> Run
    ensures { result ≡ turn s }
{
    if within(s) {
        return through(s);
    }
    Run {
        ticks: 1,
        framer: tick(s, sending()).framer,
    }
}

// A frame that has begun, to its end: the sender tells when it is there, so this is a while.
fn to_the_end(s: Framer, rest: &[u8]) -> Run
    requires stage { Stage false s 7 rest.now }
    requires rest_len_bound { length (to_come s rest.now) ≤ 19696 }
    ensures { result ≡ to_the_end s rest.now }
{
    let mut x = s;
    let mut i = 0;
    let mut n = 0;
    while !frame_ended(x) {
        let p = supply_at(x, rest, i);
        let t = turn(p.framer);
        i = p.at;
        x = t.framer;
        n += t.ticks;
    }
    Run {
        ticks: n,
        framer: x,
    }
}

// A frame whose first byte waits behind its opening flag, with the bytes that follow it.
#[tactic(auto, unfolding(crate::specs::Feeding::frame_fed))]
pub fn feed_frame(k: Shared, rest: &[u8]) -> Run
    ensures { result ≡ frame_fed k rest.now }
{
    let s = Framer {
        unit: LineUnit::Flag(0),
        insertion: not_counted(),
        shared: k,
    };
    let begins = k.buffer.is_some() & !k.latch;
    if begins & (rest.len() < LONGEST_NOTE) {
        return to_the_end(s, rest);
    }
    Run {
        ticks: 0,
        framer: s,
    }
}
