// Known answers played on a chip, item by item, and what is told of them. Assumes nothing.
#![tactic(auto)]

mod list;

ghost use Rattle.std.specs.Prelude.{◌≡◌};
ghost use Rattle.items.specs.Kind.{stops};
ghost use Rattle.items.specs.Sheet.{dealt_sheet, dealt_desk};
ghost use Rattle.items.specs.Lines.{told};
ghost use Rattle.playing.specs.Playing.{other_value, turned, judged, at_first, playing, all_rounds, played};

use crate::list::list_value;
use channel::Answer;
use chip::{Chip, Outcome};
use items::{Kind, Sheet};
use script::Event;

// What a call other than an event gives.
fn value_of(c: Chip, s: Sheet, desk: &[u8]) -> u8
    ensures { result ≡ other_value c s desk.now }
{
    match s.item.kind {
        Kind::NoteList | Kind::SharedList => list_value(c, s, desk),
        _ => calls::value_of(s, script::register(c, s.item.x, s.item.y), desk),
    }
}

// What an event answers; of any other item the value of its call, and the chip as it is: no answer asks for the chip behind a list.
#[tactic(auto, unfolding(crate::specs::Playing::turned))]
fn turned(c: Chip, s: Sheet, desk: &[u8]) -> Outcome
    ensures { result ≡ turned c s desk.now }
{
    match s.item.kind {
        Kind::Event(code) => script::step(c, Event::of(code, s.item.x, s.item.y, s.item.z)),
        _ => Outcome {
            answer: Answer::Gave(value_of(c, s, desk)),
            chip: c,
        },
    }
}

// The next item, where the last was answered so.
fn next(s: Sheet, input: &[u8], desk: &mut [u8], out: &mut [u8], w: Answer) -> Sheet
    ensures value { result ≡ dealt_sheet (judged s input.now out.old w) input.now desk.old }
    ensures desk_after { desk.new ≡ (dealt_desk (judged s input.now out.old w) input.now desk.old).cells }
    ensures out_after { out.new ≡ (told s input.now out.old).cells }
{
    items::next(s, input, desk, out, w.number(), w.value())
}

// There is no more.
fn stops(kind: Kind) -> bool
    ensures { result ≡ stops kind }
{
    kind == Kind::Stop
}

// All items that are left, from the chip behind this answer on; an item says itself that it is the last, so this is a while.
fn all_rounds(mut t: Outcome, mut s: Sheet, input: &[u8], desk: &mut [u8], out: &mut [u8]) -> Sheet
    ensures value { result ≡ (all_rounds input.now (playing s t.chip desk.old out.old)).sheet }
    ensures desk_after { desk.new ≡ (all_rounds input.now (playing s t.chip desk.old out.old)).desk }
    ensures out_after { out.new ≡ (all_rounds input.now (playing s t.chip desk.old out.old)).out }
{
    while !stops(s.item.kind) {
        t = turned(t.chip, s, desk);
        s = next(s, input, desk, out, t.answer);
    }
    s
}

// A hard reset, and nothing was answered.
fn start() -> Outcome
    ensures { result ≡ at_first }
{
    Outcome {
        answer: Answer::Done,
        chip: Chip::reset(),
    }
}

// All items are played from there on, one after another, and the cases told.
#[tactic(auto, unfolding(crate::specs::Playing::played))]
pub fn play(input: &[u8], desk: &mut [u8], out: &mut [u8]) -> Sheet
    ensures value { result ≡ (played input.now desk.old out.old).sheet }
    ensures desk_after { desk.new ≡ (played input.now desk.old out.old).desk }
    ensures out_after { out.new ≡ (played input.now desk.old out.old).out }
{
    all_rounds(start(), Sheet::start(), input, desk, out)
}
