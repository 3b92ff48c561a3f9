// Events in bytes, four for each: its code and three arguments. They are played on a chip, and a run of them is told in lines: for an event seven
// numbers, its refusal, its value, and the registers behind it; last, if not all were played, why. Assumes nothing.
#![tactic(auto)]

ghost use Rattle.std.specs.Prelude.{◌≡◌, ◌+◌, ◌≤◌, length, IfOk};
ghost use Rattle.chip.specs.Event.{step};
ghost use Rattle.script.specs.Step.{said};
ghost use Rattle.events.specs.Run.{found_at, last_line, with_numbers, told_line, played, next};

use chip::{Chip, Outcome};
use script::Event;
use text::Line;

// How a run ends: all was played; an event has an unknown code, or is cut; there are more bytes than are taken.
#[derive(Clone, Copy)]
pub enum Ending {
    All,
    Unknown,
    Cut,
    TooLong,
}

// A run's next line, empty where it has ended; the chip behind it, and the place of the next event.
#[derive(Clone, Copy)]
pub struct Told {
    pub line: Line,
    pub chip: Chip,
    pub at: usize,
}

const EVENT: usize = 4;

const LAST_CODE: u8 = 9;

// No more bytes are taken.
const LONGEST: usize = 65536;

// The event that stands at a place.
#[tactic(auto, unfolding(crate::specs::Run::found_at))]
fn found_at(events: &[u8], at: usize) -> Result<Event, Ending>
    ensures value { result ≡ found_at events.now at }
    ensures whole { IfOk result (λ e. at + EVENT ≤ length events.now) }
{
    if events.len() <= at {
        return Err(Ending::All);
    }
    if LONGEST < events.len() {
        return Err(Ending::TooLong);
    }
    let [code, x, y, z, ..] = &events[at..] else {
        return Err(Ending::Cut);
    };
    if LAST_CODE < *code {
        return Err(Ending::Unknown);
    }
    Ok(Event::of(*code, *x, *y, *z))
}

// The last line, where there is one, with the number of the event at that place, from 1 on.
fn last_line(e: Ending, at: usize) -> Line
    ensures { result ≡ last_line e at }
{
    match e {
        Ending::All => Line::empty(),
        Ending::Unknown => Line::empty()
            .with_all(b"unknown ")
            .with_number(at / EVENT + 1, b'\n'),
        Ending::Cut => Line::empty()
            .with_all(b"cut ")
            .with_number(at / EVENT + 1, b'\n'),
        Ending::TooLong => Line::empty().with_all(b"too long\n"),
    }
}

// Numbers, a space behind each.
fn with_numbers(l: Line, numbers: &[u8]) -> Line
    ensures { result ≡ with_numbers l numbers.now }
{
    numbers
        .iter()
        .fold(l, |l, v| l.with_number(usize::from(*v), b' '))
}

// An event's line.
#[tactic(auto, unfolding(crate::specs::Run::told_line))]
fn told_line(o: Outcome) -> Line
    ensures { result ≡ told_line o }
{
    let numbers = script::numbers(o);
    with_numbers(Line::empty(), &numbers[..6]).with_number(usize::from(numbers[6]), b'\n')
}

// An event is played, and the next stands there.
fn played(c: Chip, e: Event, at: usize) -> Told
    ensures { result ≡ played (step c (said e)) at }
{
    let o = script::step(c, e);
    Told {
        line: told_line(o),
        chip: o.chip,
        at,
    }
}

// The next line of a run, with its event played; behind the last there is nothing more.
#[tactic(auto, unfolding(crate::specs::Run::next))]
pub fn next(c: Chip, events: &[u8], at: usize) -> Told
    ensures { result ≡ next c events.now at }
{
    match found_at(events, at) {
        Ok(e) => played(c, e, at + EVENT),
        Err(e) => Told {
            line: last_line(e, at),
            chip: c,
            at: events.len(),
        },
    }
}
