// The calls that a station makes before a note, all of channel A of a chip, and what it writes to its registers. Assumes nothing.
ghost use Rattle.std.specs.Prelude.{◌≡◌};
ghost use Rattle.drive.specs.Drive.{control_a, look_a, write_a};

use channel::Channel;
use chip::Chip;

// The channel that a station drives.
const CHANNEL_A: u8 = 0;

// WR0: a command in D5-3, a preset or clearing in D7-6.
pub(crate) const SEND_ABORT: u8 = 8 * Channel::SEND_ABORT;

pub(crate) const CHANNEL_RESET: u8 = 8 * Channel::CHANNEL_RESET;

pub(crate) const PRESET_SENT: u8 = 64 * Channel::PRESET_TRANSMIT_CHECK;

pub(crate) const CLEAR_UNDERRUN: u8 = 64 * Channel::CLEAR_UNDERRUN;

// WR4: SDLC. WR5: eight bits, on, check included.
pub(crate) const SDLC_MODE: u8 = 0b00100000;

pub(crate) const SEND_CHECKED: u8 = 0b01101001;

// A control write.
#[tactic(auto, unfolding(drive::specs::Drive::control_a))]
pub(crate) fn control(c: Chip, v: u8) -> Chip
    ensures { result ≡ control_a c v }
{
    c.control_write(CHANNEL_A, v).chip
}

// A data write.
#[tactic(auto, unfolding(drive::specs::Drive::write_a))]
pub(crate) fn write(c: Chip, v: u8) -> Chip
    ensures { result ≡ write_a c v }
{
    c.data_write(CHANNEL_A, v).chip
}

// A look at RR0.
#[tactic(auto, unfolding(drive::specs::Drive::look_a))]
pub(crate) fn look(c: Chip) -> Chip
    ensures { result ≡ look_a c }
{
    c.control_read(CHANNEL_A).chip
}
