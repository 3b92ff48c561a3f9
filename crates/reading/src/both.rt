// 01, Interrupts: the sources of two channels, A's and B's, what is read of them, which stay in service under a control write, and what an
// acknowledge takes. Assumes nothing.
ghost use Rattle.std.specs.Prelude.{◌≡◌};
ghost use Rattle.reading.specs.Both.{pending_both, commands, service_under_a, service_under_b};
ghost use Rattle.reading.specs.Both.{special_both, vector_at, vector_both, taking};

use crate::Taking;
use crate::sources::{pending, special_waits};
use channel::Channel;
use interrupts::{Six, Source, Sources, acknowledge, may_take};
use settings::{command_in, status_affects};
use vector::{Acked, Special, vector_for};

pub fn pending_in_both(a: Channel, b: Channel) -> Six
    ensures { result ≡ pending_both a b }
{
    Six {
        a: pending(a),
        b: pending(b),
    }
}

// The control write goes to WR0, with this command.
fn commands(c: Channel, v: u8, k: u8) -> bool
    ensures { result ≡ commands c v k }
{
    c.pointer == 0 && command_in(v) == k
}

// Those in service under A's control write: WR0's command 7 ends one, and a channel reset those of A. B's is no twin of it: command 7 goes through
// A alone.
pub fn service_under_a(a: Channel, mut s: Six, v: u8) -> Six
    ensures { result ≡ service_under_a a s v }
{
    if commands(a, v, Channel::END_SERVICE) {
        return s.reti();
    }
    if commands(a, v, Channel::CHANNEL_RESET) {
        s.a = Sources::none();
    }
    s
}

// And under B's.
pub fn service_under_b(b: Channel, mut s: Six, v: u8) -> Six
    ensures { result ≡ service_under_b b s v }
{
    if commands(b, v, Channel::CHANNEL_RESET) {
        s.b = Sources::none();
    }
    s
}

// Which of the two has a special oldest entry.
pub fn special_in_both(a: Channel, b: Channel) -> Special
    ensures { result ≡ special_both a b }
{
    Special {
        a: special_waits(a),
        b: special_waits(b),
    }
}

// The vector of a source, or of none.
fn vector_at(a: Channel, b: Channel, source: Option<Source>) -> u8
    ensures { result ≡ vector_at a b source }
{
    vector_for(
        b.registers.wr2,
        status_affects(b.registers.wr1),
        source,
        special_in_both(a, b),
    )
}

// RR2.
pub fn rr2(a: Channel, b: Channel) -> u8
    ensures { result ≡ vector_both a b }
{
    vector_at(a, b, pending_in_both(a, b).highest())
}

// Acknowledge, with these in service.
#[tactic(auto, unfolding(interrupts::specs::Interrupts::acknowledged))]
pub fn acknowledging(a: Channel, b: Channel, s: Six) -> Taking
    ensures { result ≡ taking (pending_both a b) s (vector_both a b) }
{
    let p = pending_in_both(a, b);
    if may_take(p, s) {
        return Taking {
            acked: Acked::Vector(vector_at(a, b, p.highest())),
            service: acknowledge(p, s),
        };
    }
    Taking {
        acked: Acked::NothingWaits,
        service: s,
    }
}
