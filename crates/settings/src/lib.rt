// 01, Registers: the write registers as written, and what they say. Each bit is named once. Assumes nothing.
#![tactic(auto)]

ghost use Rattle.std.specs.Prelude.{◌≡◌, ◌<◌, ◌/◌, ◌^◌};
ghost use Rattle.line.specs.Bits.{odd};
ghost use Rattle.settings.specs.Settings.{pointer_in, command_in, preset_in, external_on, transmit_on, status_affects, receive_mode, enters_hunt, breaks};
ghost use Rattle.settings.specs.Settings.{auto_enables, stop_field, synchronous_field, check_included};
ghost use Rattle.settings.specs.Settings.{mode_of, mode_in, store4, syncs_in, polynomial_in, not_built};
ghost use Rattle.settings.specs.Settings.{length_of, stops_of, format_of, sends, framing_of, sending_of, receiving_of};

use asynchronous::{Format, Stops, Typing};
use bytesync::{Matching, Syncing, Syncs, polynomial_of};
use common::Mode;
use receiver::Receiving;
use sdlc::{Addressing, Framing};
use sender::Sending;
use shapes::Length;

// WR1 to WR7 as they were written; WR2 in channel B alone. The mode is what the last WR4 chose, none since a reset.
#[derive(Clone, Copy)]
pub struct Registers {
    pub mode: Mode,
    pub wr7: u8,
    pub wr6: u8,
    pub wr5: u8,
    pub wr4: u8,
    pub wr3: u8,
    pub wr2: u8,
    pub wr1: u8,
}

// The two inputs of a channel beside its line; true is on.
#[derive(Clone, Copy)]
pub struct Lines {
    pub dcd: bool,
    pub cts: bool,
}

// Which characters that wait interrupt; a special one does too, but in Off.
#[derive(Clone, Copy, PartialEq, Eq)]
pub enum ReceiveMode {
    Off,
    First,
    AllParitySpecial,
    All,
}

// Bit D of a register.
fn bit(register: u8, d: u8) -> bool
    requires { d < 8 }
    ensures { result ≡ odd (register / 2 ^ d) }
{
    (register >> d) % 2 == 1
}

// WR0's pointer.
pub fn pointer_in(wr0: u8) -> u8
    ensures { result ≡ pointer_in wr0 }
{
    wr0 % 8
}

// WR0's command.
pub fn command_in(wr0: u8) -> u8
    ensures { result ≡ command_in wr0 }
{
    wr0 / 8 % 8
}

// WR0's D7-6.
pub fn preset_in(wr0: u8) -> u8
    ensures { result ≡ preset_in wr0 }
{
    wr0 / 64
}

// WR1's external interrupt is on.
pub fn external_on(wr1: u8) -> bool
    ensures { result ≡ external_on wr1 }
{
    bit(wr1, 0)
}

// WR1's transmit interrupt is on.
pub fn transmit_on(wr1: u8) -> bool
    ensures { result ≡ transmit_on wr1 }
{
    bit(wr1, 1)
}

// WR1, of B: status affects the vector.
pub fn status_affects(wr1: u8) -> bool
    ensures { result ≡ status_affects wr1 }
{
    bit(wr1, 2)
}

// WR1's receive interrupt.
pub fn receive_mode(wr1: u8) -> ReceiveMode
    ensures { result ≡ receive_mode wr1 }
{
    match wr1 / 8 % 4 {
        0 => ReceiveMode::Off,
        1 => ReceiveMode::First,
        2 => ReceiveMode::AllParitySpecial,
        _ => ReceiveMode::All,
    }
}

// WR3's D4.
pub fn enters_hunt(wr3: u8) -> bool
    ensures { result ≡ enters_hunt wr3 }
{
    bit(wr3, 4)
}

// WR5's break.
pub fn breaks(wr5: u8) -> bool
    ensures { result ≡ breaks wr5 }
{
    bit(wr5, 4)
}

// WR3's auto enables: on takes the line with it.
fn auto_enables(wr3: u8) -> bool
    ensures { result ≡ auto_enables wr3 }
{
    bit(wr3, 5)
}

// WR4's D3-2: stop bits.
fn stop_field(wr4: u8) -> u8
    ensures { result ≡ stop_field wr4 }
{
    wr4 / 4 % 4
}

// WR4's D5-4: which synchronous mode.
fn synchronous_field(wr4: u8) -> u8
    ensures { result ≡ synchronous_field wr4 }
{
    wr4 / 16 % 4
}

// WR5's D0.
fn check_included(wr5: u8) -> bool
    ensures { result ≡ check_included wr5 }
{
    bit(wr5, 0)
}

// The mode that this WR4 chooses.
#[tactic(auto, unfolding(crate::specs::Settings::mode_of))]
pub fn mode_of(wr4: u8) -> Mode
    ensures { result ≡ mode_of wr4 }
{
    match (stop_field(wr4), synchronous_field(wr4)) {
        (0, 2) => Mode::Sdlc,
        (0, 1) => Mode::Bisync,
        (0, _) => Mode::Monosync,
        _ => Mode::Asynchronous,
    }
}

// This WR4 asks for what is not built.
#[tactic(auto, unfolding(crate::specs::Settings::not_built))]
pub fn not_built(wr4: u8) -> bool
    ensures { result ≡ not_built wr4 }
{
    let stops = stop_field(wr4);
    wr4 / 64 != 0 || stops == 2 || (stops == 0 && synchronous_field(wr4) == 3)
}

// The length that its two bits name.
#[tactic(auto, unfolding(crate::specs::Settings::length_of))]
fn length_of(field: u8) -> Length
    ensures { result ≡ length_of field }
{
    match field {
        0 => Length::Five,
        1 => Length::Seven,
        2 => Length::Six,
        _ => Length::Eight,
    }
}

// The stop bits to send.
fn stops_of(wr4: u8) -> Stops
    ensures { result ≡ stops_of wr4 }
{
    if stop_field(wr4) == 3 {
        Stops::Two
    } else {
        Stops::One
    }
}

impl Registers {
    // The mode; copied by itself, so that a tick need not lay the registers out for it (bench/README.md).
    pub fn mode(self) -> Mode
        ensures { result ≡ mode_in self }
    {
        let mode = self.mode;
        mode
    }

    // A WR4 that is accepted, and the mode that it chooses.
    pub fn with_wr4(self, wr4: u8) -> Registers
        ensures { result ≡ store4 self wr4 }
    {
        Registers {
            wr4,
            mode: mode_of(wr4),
            ..self
        }
    }

    // The sync characters.
    fn syncs(self) -> Syncs
        ensures { result ≡ syncs_in self }
    {
        Syncs {
            both: synchronous_field(self.wr4) == 1,
            first: self.wr6,
            second: self.wr7,
        }
    }

    // The polynomial of Monosync and Bisync.
    fn polynomial(self) -> u16
        ensures { result ≡ polynomial_in self }
    {
        polynomial_of(bit(self.wr5, 2))
    }

    // A character's length and parity, the length by its two bits.
    fn format(self, field: u8) -> Format
        ensures { result ≡ format_of self field }
    {
        Format {
            length: length_of(field).size(),
            parity: bit(self.wr4, 0),
            even: bit(self.wr4, 1),
        }
    }

    // The sender is on.
    fn sends(self, l: Lines) -> bool
        ensures { result ≡ sends self l }
    {
        bit(self.wr5, 3) && (!auto_enables(self.wr3) || l.cts)
    }

    // What SDLC's sender is told.
    pub fn framing(self, l: Lines) -> Framing
        ensures { result ≡ framing_of self l }
    {
        Framing {
            on: self.sends(l),
            included: check_included(self.wr5),
        }
    }

    // The sender's settings.
    #[tactic(auto, unfolding(crate::specs::Settings::sending_of))]
    pub fn sending(self, l: Lines) -> Sending
        ensures { result ≡ sending_of self l }
    {
        let on = self.sends(l);
        Sending {
            mode: self.mode(),
            broken: breaks(self.wr5),
            framing: self.framing(l),
            typing: Typing {
                on,
                format: self.format(self.wr5 / 32 % 4),
                stops: stops_of(self.wr4).count(),
            },
            syncing: Syncing {
                on,
                included: check_included(self.wr5),
                polynomial: self.polynomial(),
                syncs: self.syncs(),
            },
        }
    }

    // The receiver's settings.
    #[tactic(auto, unfolding(crate::specs::Settings::receiving_of))]
    pub fn receiving(self, l: Lines) -> Receiving
        ensures { result ≡ receiving_of self l }
    {
        Receiving {
            mode: self.mode(),
            on: bit(self.wr3, 0) && (!auto_enables(self.wr3) || l.dcd),
            addressing: Addressing {
                search: bit(self.wr3, 2),
                address: self.wr6,
            },
            format: self.format(self.wr3 / 64),
            matching: Matching {
                syncs: self.syncs(),
                strip: bit(self.wr3, 1),
                checking: bit(self.wr3, 3),
                polynomial: self.polynomial(),
            },
        }
    }
}
