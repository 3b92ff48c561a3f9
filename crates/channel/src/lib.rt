// 01, Registers, Interrupts and external status: one channel of the chip, event by event. Any value of a channel is accepted. Assumes nothing.
#![tactic(auto)]

mod events;
mod external;

ghost use Rattle.std.specs.Prelude.{◌≡◌};
ghost use Rattle.channel.specs.Answer.{answer_number, answer_value};
ghost use Rattle.channel.specs.Channel.{reset_with};

pub use crate::events::cell;
use common::{Mode, Refusal};
use queue::Queue;
use receiver::Receiver;
use sender::Sender;
use settings::{Lines, Registers};
use status::Status;

// Which of the two channels.
#[derive(Clone, Copy)]
pub enum Side {
    A,
    B,
}

// Its parts, and theirs, stand in the order in which its calls take the least stack and a tick the fewest instructions (bench/README.md).
#[derive(Clone, Copy)]
pub struct Channel {
    pub receiver: Receiver,
    pub queue: Queue,
    pub status: Status,
    // transmit is pending
    pub transmit: bool,
    // the first-character interrupt
    pub armed: bool,
    // the register that the next control read or write names
    pub pointer: u8,
    pub lines: Lines,
    pub sender: Sender,
    pub registers: Registers,
}

// What a call answers. Three cases in the paper's words: a `Result<Option<u8>, Refusal>` would nest them and say none.
#[derive(Clone, Copy)]
pub enum Answer {
    Done,
    Gave(u8),
    Refused(Refusal),
}

#[derive(Clone, Copy)]
pub struct Answered {
    pub answer: Answer,
    pub channel: Channel,
}

impl Answer {
    // The paper's number of the refusal, 0 for none.
    pub fn number(self) -> u8
        ensures { result ≡ answer_number self }
    {
        match self {
            Answer::Done | Answer::Gave(_) => 0,
            Answer::Refused(k) => k.number(),
        }
    }

    // The value given, 0 for none.
    pub fn value(self) -> u8
        ensures { result ≡ answer_value self }
    {
        match self {
            Answer::Gave(v) => v,
            Answer::Done | Answer::Refused(_) => 0,
        }
    }
}

impl Channel {
    // WR0's commands: constants of the type and no enum, as document 01 asks.
    pub const SEND_ABORT: u8 = 1;

    pub const RESET_STATUS: u8 = 2;

    pub const CHANNEL_RESET: u8 = 3;

    pub const ARM_FIRST_CHARACTER: u8 = 4;

    pub const RESET_TRANSMIT: u8 = 5;

    pub const ERROR_RESET: u8 = 6;

    pub const END_SERVICE: u8 = 7;

    // WR0's D7-6.
    pub const PRESET_RECEIVE_CHECK: u8 = 1;

    pub const PRESET_TRANSMIT_CHECK: u8 = 2;

    pub const CLEAR_UNDERRUN: u8 = 3;

    // A channel reset; the lines are inputs and stay.
    pub fn reset(l: Lines) -> Channel
        ensures { result ≡ reset_with l }
    {
        Channel {
            registers: Registers {
                wr1: 0,
                wr2: 0,
                wr3: 0,
                wr4: 0,
                wr5: 0,
                wr6: 0,
                wr7: 0,
                mode: Mode::NoMode,
            },
            sender: Sender::reset(),
            receiver: Receiver::reset(),
            queue: Queue::empty(),
            status: Status::unlatched(),
            lines: l,
            pointer: 0,
            armed: true,
            transmit: false,
        }
    }
}
