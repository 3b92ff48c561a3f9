// The events of 01 as values, each by its code too, and what a host sees of one: its refusal, the value that it gave, and the registers behind it.
// Assumes nothing.
#![tactic(auto)]

ghost use Rattle.std.specs.Prelude.{◌≡◌};
ghost use Rattle.chip.specs.Event.{acked_answer, step};
ghost use Rattle.script.specs.Step.{event_of, said};
ghost use Rattle.script.specs.Shown.{register_of, shown, numbers};

use channel::Answer;
use chip::{Chip, Outcome};
use common::Refusal;
use vector::Acked;

// 01, Events: an event with what it is given.
#[derive(Clone, Copy)]
pub enum Event {
    HardReset,
    ControlWrite { channel: u8, value: u8 },
    ControlRead { channel: u8 },
    DataWrite { channel: u8, value: u8 },
    DataRead { channel: u8 },
    Transmit { channel: u8 },
    Receive { channel: u8, bit: u8 },
    SetLines { channel: u8, dcd: u8, cts: u8 },
    Acknowledge,
    Reti,
}

impl Event {
    // The event of a code, given the first of three arguments; any code above 9 is taken as the last, RETI's.
    pub fn of(code: u8, x: u8, y: u8, z: u8) -> Event
        ensures { result ≡ event_of code x y z }
    {
        let channel = x;
        match code {
            0 => Event::HardReset,
            1 => Event::ControlWrite { channel, value: y },
            2 => Event::ControlRead { channel },
            3 => Event::DataWrite { channel, value: y },
            4 => Event::DataRead { channel },
            5 => Event::Transmit { channel },
            6 => Event::Receive { channel, bit: y },
            7 => Event::SetLines {
                channel,
                dcd: y,
                cts: z,
            },
            8 => Event::Acknowledge,
            _ => Event::Reti,
        }
    }
}

// An acknowledge's answer among those of the other calls.
fn answer_of(w: Acked) -> Answer
    ensures { result ≡ acked_answer w }
{
    match w {
        Acked::Vector(v) => Answer::Gave(v),
        Acked::NothingWaits => Answer::Refused(Refusal::NothingWaits),
    }
}

// One event.
pub fn step(c: Chip, e: Event) -> Outcome
    ensures { result ≡ step c (said e) }
{
    match e {
        Event::HardReset => Outcome {
            answer: Answer::Done,
            chip: Chip::reset(),
        },
        Event::ControlWrite { channel, value } => c.control_write(channel, value),
        Event::ControlRead { channel } => c.control_read(channel),
        Event::DataWrite { channel, value } => c.data_write(channel, value),
        Event::DataRead { channel } => c.data_read(channel),
        Event::Transmit { channel } => c.transmit(channel),
        Event::Receive { channel, bit } => c.receive(channel, bit),
        Event::SetLines { channel, dcd, cts } => c.set_lines(channel, dcd, cts),
        Event::Acknowledge => {
            let o = c.acknowledge();
            Outcome {
                answer: answer_of(o.acked),
                chip: o.chip,
            }
        }
        Event::Reti => Outcome {
            answer: Answer::Done,
            chip: c.reti(),
        },
    }
}

// What a host reads in register n of a channel, at which a write behind a control read points; its reading is not kept.
#[tactic(auto, unfolding(crate::specs::Shown::pointed_at, crate::specs::Shown::register_of))]
pub fn register(c: Chip, channel: u8, n: u8) -> u8
    ensures { result ≡ register_of c channel n }
{
    let mut o = c.control_read(channel);
    o = o.chip.control_write(channel, n);
    o = o.chip.control_read(channel);
    o.answer.value()
}

// An event's number at place k, from 0 on: its refusal, its value, and RR0 and RR1 of A, RR0, RR1 and RR2 of B behind it; this last at any place
// above. Part of `numbers`, where each place is known.
#[inline(always)]
#[tactic(auto, unfolding(crate::specs::Shown::shown))]
pub fn shown(o: Outcome, k: u8) -> u8
    ensures { result ≡ shown o k }
{
    match k {
        0 => o.answer.number(),
        1 => o.answer.value(),
        2 => register(o.chip, 0, 0),
        3 => register(o.chip, 0, 1),
        4 => register(o.chip, 1, 0),
        5 => register(o.chip, 1, 1),
        _ => register(o.chip, 1, 2),
    }
}

// An event's seven numbers, in that order.
#[tactic(auto, unfolding(crate::specs::Shown::shown))]
pub fn numbers(o: Outcome) -> [u8; 7]
    ensures { result ≡ numbers o }
{
    [
        shown(o, 0),
        shown(o, 1),
        shown(o, 2),
        shown(o, 3),
        shown(o, 4),
        shown(o, 5),
        shown(o, 6),
    ]
}
