// 01, Sending: what the senders of all modes share, the buffer, the underrun latch and the check; and what presets a check. Assumes nothing.
#![tactic(auto)]

ghost use Rattle.std.specs.Prelude.{◌≡◌};
ghost use Rattle.shared.specs.Preset.{preset_for};
ghost use Rattle.shared.specs.Shared.{shared_at_reset, filled, emptied, latched, cleared, check_set, byte_entered, entered};

use common::{Mode, in_blocks};
use line::{ONES, check_byte};

// buffer: the byte that waits in it, if it is full. latch: Underrun/EOM, RR0 D6.
#[derive(Clone, Copy)]
pub struct Shared {
    pub buffer: Option<u8>,
    pub check: u16,
    pub latch: bool,
}

// A preset check of Monosync and Bisync.
const ZEROS: u16 = 0;

// What WR0's presets load.
pub fn preset_for(mode: Mode) -> u16
    ensures { result ≡ preset_for mode }
{
    if in_blocks(mode) { ZEROS } else { ONES }
}

impl Shared {
    // After a channel reset.
    pub fn reset() -> Shared
        ensures { result ≡ shared_at_reset }
    {
        Shared {
            buffer: None,
            latch: true,
            check: ONES,
        }
    }

    // A data write.
    pub fn filled(mut self, v: u8) -> Shared
        ensures { result ≡ filled self v }
    {
        self.buffer = Some(v);
        self
    }

    // The byte has left the buffer, or is dropped.
    pub fn emptied(mut self) -> Shared
        ensures { result ≡ emptied self }
    {
        self.buffer = None;
        self
    }

    // The underrun latch is set.
    pub fn latched(mut self) -> Shared
        ensures { result ≡ latched self }
    {
        self.latch = true;
        self
    }

    // The underrun latch is cleared.
    pub fn cleared(mut self) -> Shared
        ensures { result ≡ cleared self }
    {
        self.latch = false;
        self
    }

    // The check is preset.
    pub fn check_set(mut self, check: u16) -> Shared
        ensures { result ≡ check_set self check }
    {
        self.check = check;
        self
    }

    // The byte v enters the check over the polynomial p, if it is included. Part of each `start_byte` that calls it.
    #[inline(always)]
    pub fn byte_entered(self, v: u8, p: u16, included: bool) -> Shared
        ensures { result ≡ byte_entered p included v self }
    {
        if included {
            return self.check_set(check_byte(p, self.check, v));
        }
        self
    }

    // The byte in the buffer enters the check over the polynomial p, if it is included; of an empty buffer 0.
    pub fn entered(self, p: u16, included: bool) -> Shared
        ensures { result ≡ entered p included self }
    {
        self.byte_entered(self.buffer.unwrap_or(0), p, included)
    }
}
