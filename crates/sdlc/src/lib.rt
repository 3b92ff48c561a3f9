// SDLC: units, zero insertion, flags; what lies between two flags, its delay, characters and address. Settings come decoded; it knows no
// other mode. Its parts and its definitions stand here; its sending and its receiving are coded beside it, in framing and listening.
// Assumes nothing.
#![tactic(auto)]

ghost use Rattle.std.specs.Prelude.{◌≡◌};
ghost use Rattle.sdlc.specs.Sending.{not_counted, aborting, checking};
ghost use Rattle.sdlc.specs.Within.{byte_left, byte_rest};
ghost use Rattle.sdlc.specs.Hearing.{content_at};

use entry::Entry;
use line::Insertion;
use shared::Shared;

// What is on the line. The first number: bits still to be sent; the second: what is left to shift out.
#[derive(Clone, Copy)]
pub enum LineUnit {
    Mark,
    Flag(u8),
    Byte(u8, u8),
    Check(u8, u16),
    Abort(u8),
}

// What registers and CTS say of sending. on: WR5 D3 and, with auto enables, CTS; included: WR5 D0, bytes enter the check, and it is sent.
#[derive(Clone, Copy)]
pub struct Framing {
    pub on: bool,
    pub included: bool,
}

// SDLC's sender: its unit, its zero insertion, and what it shares with other modes.
#[derive(Clone, Copy)]
pub struct Framer {
    pub unit: LineUnit,
    pub insertion: Insertion,
    pub shared: Shared,
}

// What a transmit tick gives; loaded: a byte left the buffer.
#[derive(Clone, Copy)]
pub struct Framed {
    pub bit: bool,
    pub loaded: bool,
    pub framer: Framer,
}

// What registers say of address search: WR3 D2 and WR6.
#[derive(Clone, Copy)]
pub struct Addressing {
    pub search: bool,
    pub address: u8,
}

// Behind the delay: count bits of a character in part, and a whole one that is held.
#[derive(Clone, Copy)]
pub struct Chars {
    pub count: u8,
    pub part: u8,
    pub held: Option<u8>,
}

// What lies between two flags. hunt: no flag has come yet; skip: the frame is dropped until a flag; ones in a row on the line;
// the bits in the delay under a leading one.
#[derive(Clone, Copy)]
pub struct Content {
    pub hunt: bool,
    pub skip: bool,
    pub ones: u8,
    pub delay: u8,
    pub chars: Chars,
}

// SDLC's receiver: what it has heard of the frame, and what it shares with other modes, the check and RR0 D7.
#[derive(Clone, Copy)]
pub struct Listener {
    pub content: Content,
    pub check: u16,
    pub broken: bool,
}

// What a receive tick gives: the receiver, and what goes into the queue.
#[derive(Clone, Copy)]
pub struct Listened {
    pub listener: Listener,
    pub entry: Option<Entry>,
}

// An empty delay.
pub const EMPTY: u8 = 1;

// No ones are counted, and no zero is owed.
pub fn not_counted() -> Insertion
    ensures { result ≡ not_counted }
{
    Insertion {
        run: 0,
        owed: false,
    }
}

impl LineUnit {
    // An abort is under way.
    pub fn aborting(self) -> bool
        ensures { result ≡ aborting self }
    {
        matches!(self, LineUnit::Abort(_))
    }

    // A check is being sent.
    pub fn checking(self) -> bool
        ensures { result ≡ checking self }
    {
        matches!(self, LineUnit::Check(_, _))
    }

    // The bits of a byte that are still to be sent; 0 in another unit. BlockUnit of bytesync has these two likewise: a trait with its laws would be
    // longer than both.
    pub fn byte_left(self) -> u8
        ensures { result ≡ byte_left self }
    {
        if let LineUnit::Byte(n, _) = self {
            n
        } else {
            0
        }
    }

    // What is left of a byte to shift out; 0 in another unit.
    pub fn byte_rest(self) -> u8
        ensures { result ≡ byte_rest self }
    {
        if let LineUnit::Byte(_, v) = self {
            v
        } else {
            0
        }
    }
}

impl Content {
    // Nothing has been heard of a frame; in hunt, or dropping, or neither.
    pub fn at(hunt: bool, skip: bool, ones: u8) -> Content
        ensures { result ≡ content_at hunt skip ones }
    {
        Content {
            hunt,
            skip,
            ones,
            delay: EMPTY,
            chars: Chars {
                count: 0,
                part: 0,
                held: None,
            },
        }
    }
}
