// 01, Sending, SDLC: the unit under way, the first bit of each, the choice of the next, and Send Abort. Assumes nothing.
#![tactic(auto)]

mod inside;

ghost use Rattle.std.specs.Prelude.{◌≡◌, false};
ghost use Rattle.sdlc.specs.Sending.{start_mark, start_flag, start_byte, start_check, underrun, following, going, tick_sdlc};
ghost use Rattle.sdlc.specs.Sending.{sent_bit, paid, no_bit_left, goes_on, byte_on, check_on, cut_short, aborted_by};

pub use crate::inside::{tick_within, within};
use line::{Insertion, ONES, SDLC};
use sdlc::{Framed, Framer, Framing, LineUnit, not_counted};
use shared::Shared;

// The unit's next bit: nothing is loaded.
fn sent_bit(bit: bool, unit: LineUnit, insertion: Insertion, shared: Shared) -> Framed
    ensures { result ≡ sent_bit bit unit insertion shared }
{
    Framed {
        bit,
        loaded: false,
        framer: Framer {
            unit,
            insertion,
            shared,
        },
    }
}

// The first bit of each unit; run ones in a row went before it.
fn start_mark(k: Shared) -> Framed
    ensures { result ≡ start_mark k }
{
    sent_bit(true, LineUnit::Mark, not_counted(), k)
}

fn start_flag(k: Shared) -> Framed
    ensures { result ≡ start_flag k }
{
    sent_bit(false, LineUnit::Flag(7), not_counted(), k)
}

// v waited in the buffer. Part of the tick behind a flag and of that behind a byte, so that nothing of it goes through memory.
#[inline(always)]
fn start_byte(g: Framing, run: u8, v: u8, k: Shared) -> Framed
    ensures { result ≡ start_byte g run v k }
{
    let b = v % 2 == 1;
    Framed {
        bit: b,
        loaded: true,
        framer: Framer {
            unit: LineUnit::Byte(7, v / 2),
            insertion: Insertion::counted(run, b),
            shared: k.byte_entered(v, SDLC, g.included).emptied(),
        },
    }
}

fn start_check(run: u8, k: Shared) -> Framed
    ensures { result ≡ start_check run k }
{
    let c = k.check ^ ONES;
    let b = c / 32768 % 2 == 1;
    sent_bit(
        b,
        LineUnit::Check(15, c % 32768 * 2),
        Insertion::counted(run, b),
        k,
    )
}

// Behind a byte, with none to follow.
fn underrun(g: Framing, run: u8, k: Shared) -> Framed
    ensures { result ≡ underrun g run k }
{
    if !k.latch & g.included {
        return start_check(run, k.latched());
    }
    start_flag(k.latched())
}

// The unit that follows this one, while on.
#[tactic(auto, unfolding(sdlc::specs::Sending::following))]
fn following(g: Framing, u: LineUnit, run: u8, k: Shared) -> Framed
    ensures { result ≡ following g u run k }
{
    match u {
        LineUnit::Flag(_) => match k.buffer {
            Some(v) => start_byte(g, run, v, k),
            None => start_flag(k),
        },
        LineUnit::Byte(_, _) => match k.buffer {
            Some(v) => start_byte(g, run, v, k),
            None => underrun(g, run, k),
        },
        LineUnit::Mark | LineUnit::Check(_, _) | LineUnit::Abort(_) => start_flag(k),
    }
}

// No bit of this unit is left.
fn no_bit_left(u: LineUnit) -> bool
    ensures { result ≡ no_bit_left u }
{
    match u {
        LineUnit::Mark => true,
        LineUnit::Flag(n) | LineUnit::Byte(n, _) | LineUnit::Check(n, _) | LineUnit::Abort(n) => n
            == 0,
    }
}

// The next bit of a byte and of a check, all but the first.
fn byte_on(n: u8, v: u8, run: u8, k: Shared) -> Framed
    ensures { result ≡ byte_on n v run k }
{
    let b = v % 2 == 1;
    sent_bit(
        b,
        LineUnit::Byte(n.saturating_sub(1), v / 2),
        Insertion::counted(run, b),
        k,
    )
}

fn check_on(n: u8, v: u16, run: u8, k: Shared) -> Framed
    ensures { result ≡ check_on n v run k }
{
    let b = v / 32768 % 2 == 1;
    sent_bit(
        b,
        LineUnit::Check(n.saturating_sub(1), v % 32768 * 2),
        Insertion::counted(run, b),
        k,
    )
}

// The next bit of the unit, which has one left.
fn goes_on(u: LineUnit, run: u8, k: Shared) -> Framed
    ensures { result ≡ goes_on u run k }
{
    match u {
        LineUnit::Mark => start_mark(k),
        LineUnit::Flag(n) => sent_bit(
            (n != 8) & (n != 1),
            LineUnit::Flag(n.saturating_sub(1)),
            not_counted(),
            k,
        ),
        LineUnit::Byte(n, v) => byte_on(n, v, run, k),
        LineUnit::Check(n, v) => check_on(n, v, run, k),
        LineUnit::Abort(n) => sent_bit(
            true,
            LineUnit::Abort(n.saturating_sub(1)),
            not_counted(),
            k,
        ),
    }
}

// The next bit of the unit, or of the one that follows it.
#[tactic(auto, unfolding(sdlc::specs::Sending::going))]
fn going(g: Framing, u: LineUnit, run: u8, k: Shared) -> Framed
    ensures { result ≡ going g u run k }
{
    if no_bit_left(u) {
        if g.on {
            return following(g, u, run, k);
        }
        return start_mark(k);
    }
    goes_on(u, run, k)
}

// A zero that is owed goes first.
fn owed_zero(f: Framer) -> Framed
    ensures { result ≡ sent_bit false f.unit (paid f.insertion) f.shared }
{
    let insertion = Insertion {
        owed: false,
        ..f.insertion
    };
    sent_bit(false, f.unit, insertion, f.shared)
}

// One transmit tick.
#[tactic(auto, unfolding(sdlc::specs::Sending::tick_sdlc))]
pub fn tick(f: Framer, g: Framing) -> Framed
    ensures { result ≡ tick_sdlc g f }
{
    if f.insertion.owed {
        return owed_zero(f);
    }
    going(g, f.unit, f.insertion.run, f.shared)
}

// An abort of eight ones in place of all that was to be sent.
fn cut_short(f: Framer) -> Framer
    ensures { result ≡ cut_short f }
{
    Framer {
        unit: LineUnit::Abort(8),
        insertion: not_counted(),
        shared: f.shared.latched().emptied(),
    }
}

// Send Abort.
pub fn send_abort(f: Framer, g: Framing) -> Framer
    ensures { result ≡ aborted_by g f }
{
    if g.on & !f.unit.aborting() {
        return cut_short(f);
    }
    f
}
