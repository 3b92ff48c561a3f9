// A station opens a note's frame on channel A of a chip, whatever that was doing: a flag has ended, the check is preset, the latch cleared and the
// first byte written. Its SDLC sender, fed on its own from there on, is put back. A function holds one chip and writes it over: a second one is dear
// to prove. Assumes nothing.
#![tactic(auto)]

mod calling;
mod putback;
mod ready;

ghost use Rattle.std.specs.Prelude.{◌≡◌, []};
ghost use Rattle.drive.specs.Drive.{driven, ticks_to_flag, flag_ended, frame_opened};
ghost use Rattle.drive.specs.Framer.{chip_with};

use crate::calling::{CLEAR_UNDERRUN, PRESET_SENT, control, write};
use crate::putback::channel_with;
use crate::ready::prepared;
use chip::Chip;
use flags::FLAG;
use sdlc::{Framer, LineUnit};

// So many transmit ticks, with nothing to write, by the channel's own method: a station ticks no other channel.
#[tactic(auto, using(drive::proofs::Laws::Frame::driven_none))]
pub fn ticked(mut c: Chip, n: usize) -> Chip
    ensures { result ≡ driven n c [] }
{
    for _ in 0..n {
        c.a = c.a.transmit_tick().channel;
    }
    c
}

// To the end of the flag that is under way, or of the next one.
fn ticks_to_flag(u: LineUnit) -> usize
    ensures { result ≡ ticks_to_flag u }
{
    match u {
        LineUnit::Mark => FLAG,
        LineUnit::Flag(n) => usize::from(n),
        LineUnit::Abort(n) => usize::from(n) + FLAG,
        LineUnit::Byte(_, _) | LineUnit::Check(_, _) => 0,
    }
}

// A flag has ended, and the next unit is still to be chosen.
#[tactic(auto, unfolding(drive::specs::Drive::flag_ended))]
fn flag_ended(mut c: Chip) -> Chip
    ensures { result ≡ flag_ended c }
{
    c = prepared(c);
    ticked(c, ticks_to_flag(c.a.sender.unit))
}

// There the check is preset, the latch cleared and the first byte written.
#[tactic(auto, unfolding(drive::specs::Drive::frame_opened))]
pub fn open_frame(mut c: Chip, v: u8) -> Chip
    ensures { result ≡ frame_opened c v }
{
    c = flag_ended(c);
    c = control(c, PRESET_SENT);
    c = control(c, CLEAR_UNDERRUN);
    write(c, v)
}

// A chip after ticks and data writes of A's SDLC sender alone, which has come to this.
pub fn chip_with(mut c: Chip, f: Framer) -> Chip
    ensures { result ≡ chip_with c f }
{
    c.a = channel_with(c.a, f);
    c
}
