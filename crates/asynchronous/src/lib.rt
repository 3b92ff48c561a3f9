// Asynchronous mode: a character sent, a character heard. Settings come decoded; it knows no other mode. Assumes nothing.
#![tactic(auto)]

mod hearing;
mod sending;

ghost use Rattle.std.specs.Prelude.{◌≡◌};
ghost use Rattle.asynchronous.specs.Sending.{no_character, under_way};
ghost use Rattle.asynchronous.specs.Hearing.{no_assembly};

use entry::Entry;
use shared::Shared;

// A character's data bits, five to eight (anything else is eight, by `Length::of`), and its parity.
#[derive(Clone, Copy)]
pub struct Format {
    pub length: u8,
    pub parity: bool,
    pub even: bool,
}

// The stop bits of a character that is sent.
#[derive(Clone, Copy, PartialEq, Eq)]
pub enum Stops {
    One = 1,
    Two = 2,
}

// What registers and CTS say of sending. on: WR5 D3 and, with auto enables, CTS; stops: their number, by `Stops::of`.
#[derive(Clone, Copy)]
pub struct Typing {
    pub on: bool,
    pub format: Format,
    pub stops: u8,
}

// The character on the line, behind its start bit: so many bits are left to send (0: none is under way), and these, the first lowest.
#[derive(Clone, Copy)]
pub struct Character {
    pub left: u8,
    pub bits: u16,
}

// What a transmit tick gives; loaded: a character left the buffer.
#[derive(Clone, Copy)]
pub struct Typed {
    pub bit: bool,
    pub loaded: bool,
    pub character: Character,
    pub shared: Shared,
}

// A character that is heard. wait: a 1 must come before the next start. left bits are still to come, its stop bit among them (0: none is
// under way); the byte so far, with ones where no bit has come; the weight of the next bit; whether the ones are odd in number, and
// whether there is none; parity as set at its start.
#[derive(Clone, Copy)]
pub struct Assembly {
    pub wait: bool,
    pub left: u8,
    pub bits: u8,
    pub weight: u8,
    pub odd: bool,
    pub blank: bool,
    pub parity: bool,
    pub even: bool,
}

// What a receive tick gives: the character, RR0 D7, and what goes into the queue.
#[derive(Clone, Copy)]
pub struct Assembled {
    pub assembly: Assembly,
    pub broken: bool,
    pub entry: Option<Entry>,
}

impl Character {
    // No character is on the line.
    pub fn none() -> Character
        ensures { result ≡ no_character }
    {
        Character { left: 0, bits: 0 }
    }

    // A character is on the line.
    pub fn under_way(self) -> bool
        ensures { result ≡ under_way self }
    {
        self.left != 0
    }
}

impl Assembly {
    // No character is under way; a 1 must come first, or not.
    pub fn none(wait: bool) -> Assembly
        ensures { result ≡ no_assembly wait }
    {
        Assembly {
            wait,
            left: 0,
            bits: 0,
            weight: 0,
            odd: false,
            blank: false,
            parity: false,
            even: false,
        }
    }
}
