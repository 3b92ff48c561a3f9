// The byte-synchronous modes, Monosync and Bisync: eight bits, no parity, no zeros inserted. Settings come decoded; it knows no other mode.
// Assumes nothing.
#![tactic(auto)]

mod hearing;
mod inside;
mod sending;

ghost use Rattle.std.specs.Prelude.{◌≡◌};
ghost use Rattle.bytesync.specs.Syncs.{polynomial_of};
ghost use Rattle.bytesync.specs.Sending.{sends_check};
ghost use Rattle.bytesync.specs.Hearing.{no_block, reception_at, searching, wrong};

pub use crate::inside::{hear_within, hears_within, tick_within, within};
use entry::Entry;
use line::SDLC;
use shared::Shared;

// The sync characters. both: Bisync, the sync is two; first is WR6, second WR7.
#[derive(Clone, Copy)]
pub struct Syncs {
    pub both: bool,
    pub first: u8,
    pub second: u8,
}

// What is on the line. The first number: bits still to be sent; the second: what is left to shift out.
#[derive(Clone, Copy)]
pub enum BlockUnit {
    Mark,
    Sync(u8, u16),
    Byte(u8, u8),
    Check(u8, u16),
}

// What registers and CTS say of sending. on: WR5 D3 and, with auto enables, CTS; included: WR5 D0, bytes enter the check, and it is sent;
// the check's polynomial, by WR5 D2.
#[derive(Clone, Copy)]
pub struct Syncing {
    pub on: bool,
    pub included: bool,
    pub polynomial: u16,
    pub syncs: Syncs,
}

// What a transmit tick gives; loaded: a byte left the buffer.
#[derive(Clone, Copy)]
pub struct Synced {
    pub bit: bool,
    pub loaded: bool,
    pub unit: BlockUnit,
    pub shared: Shared,
}

// What registers say of receiving. strip: WR3 D1, leading syncs are kept out of the queue; checking: WR3 D3, the character that waits enters
// the check; its polynomial, by WR5 D2.
#[derive(Clone, Copy)]
pub struct Matching {
    pub syncs: Syncs,
    pub strip: bool,
    pub checking: bool,
    pub polynomial: u16,
}

// Behind the match. leading: no character but syncs has come; turn: Bisync's next leading sync is WR7; what is held waits to enter the check.
#[derive(Clone, Copy)]
pub struct Block {
    pub leading: bool,
    pub turn: bool,
    pub held: Option<u8>,
}

// hunt: no sync has come yet; the last bits that came, since hunt began or since the last character, the newest highest; count of them, in
// hunt at most sixteen.
#[derive(Clone, Copy)]
pub struct Reception {
    pub count: u8,
    pub hunt: bool,
    pub bits: u16,
    pub block: Block,
}

// What a receive tick gives: the receiver, the check, and what goes into the queue.
#[derive(Clone, Copy)]
pub struct Matched {
    pub reception: Reception,
    pub check: u16,
    pub entry: Option<Entry>,
}

// x^16+x^15+x^2+1.
pub const CRC16: u16 = 0x8005;

// The polynomial that WR5 D2 chooses.
pub fn polynomial_of(d2: bool) -> u16
    ensures { result ≡ polynomial_of d2 }
{
    if d2 { CRC16 } else { SDLC }
}

// RR1 D6 with this receive check.
pub fn wrong(check: u16) -> bool
    ensures { result ≡ wrong check }
{
    check != 0
}

impl BlockUnit {
    // A check is being sent.
    pub fn sends_check(self) -> bool
        ensures { result ≡ sends_check self }
    {
        matches!(self, BlockUnit::Check(_, _))
    }
}

impl Block {
    // No character has come; leading: the sync has.
    fn none(leading: bool) -> Block
        ensures { result ≡ no_block leading }
    {
        Block {
            leading,
            turn: false,
            held: None,
        }
    }
}

impl Reception {
    // No bit has come.
    fn at(hunt: bool, block: Block) -> Reception
        ensures { result ≡ reception_at hunt block }
    {
        Reception {
            hunt,
            bits: 0,
            count: 0,
            block,
        }
    }

    // Nothing has been heard of a block.
    pub fn searching(hunt: bool) -> Reception
        ensures { result ≡ searching hunt }
    {
        Reception::at(hunt, Block::none(false))
    }
}
