// An entry of the receive queue: a character with its marks, and what RR1 and the interrupts see of it. Assumes nothing.
#![tactic(auto)]

ghost use Rattle.std.specs.Prelude.{◌≡◌};
ghost use Rattle.entry.specs.Entry.{received, no_entry, overran, rr1_with, rr1_of, special_of};

use common::placed;

// A character with its marks.
#[derive(Clone, Copy)]
pub struct Entry {
    // its parity is wrong
    pub parity: bool,
    // it replaced the newest of a full queue
    pub overrun: bool,
    // its stop bit was 0
    pub framing: bool,
    // it ends a frame
    pub ends: bool,
    // it ends a frame whose check is bad
    pub bad: bool,
    pub byte: u8,
}

// RR1's bits by their weight; D3-1 binary 011 says that a frame ended on a whole character.
const D0: u8 = 0b1;

const WHOLE: u8 = 0b110;

const D4: u8 = 0b10000;

const D5: u8 = 0b100000;

const D6: u8 = 0b1000000;

const D7: u8 = 0b10000000;

impl Entry {
    // The one place where entries are built; the overrun mark is the queue's to add.
    pub fn received(byte: u8, parity: bool, framing: bool, ends: bool, bad: bool) -> Entry
        ensures { result ≡ received byte parity framing ends bad }
    {
        Entry {
            byte,
            parity,
            overrun: false,
            framing,
            ends,
            bad,
        }
    }

    // What stands where no character is.
    pub fn none() -> Entry
        ensures { result ≡ no_entry }
    {
        Entry::received(0, false, false, false, false)
    }

    // Marked overrun, with its own marks kept.
    pub fn overran(self) -> Entry
        ensures { result ≡ overran self }
    {
        Entry {
            overrun: true,
            ..self
        }
    }

    // RR1 with this entry the oldest, all sent, the two latches and D6 being told.
    pub fn rr1_with(self, sent: bool, parity: bool, overrun: bool, error: bool) -> u8
        ensures { result ≡ rr1_with self sent parity overrun error }
    {
        placed(sent, D0)
            + placed(self.ends, WHOLE)
            + placed(parity, D4)
            + placed(overrun, D5)
            + placed(error, D6)
            + placed(self.ends, D7)
    }

    // RR1 with D6 the entry's own.
    pub fn rr1(self, sent: bool, parity: bool, overrun: bool) -> u8
        ensures { result ≡ rr1_of self sent parity overrun }
    {
        let error = self.framing | (self.ends & self.bad);
        self.rr1_with(sent, parity, overrun, error)
    }

    // Whether it is special; a wrong parity counts in receive interrupt mode 2 alone.
    pub fn special(self, parity: bool) -> bool
        ensures { result ≡ special_of self parity }
    {
        self.overrun | (self.framing | (self.ends | (self.parity & parity)))
    }
}
