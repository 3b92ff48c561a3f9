// A note that fits, through channel A of a chip: its frame is opened on the chip, behind a flag of its own if that is how notes follow each other; its
// bytes are fed to the SDLC sender alone, and their ticks told. Assumes nothing.
ghost use Rattle.std.specs.Prelude.{◌≡◌, true, ◌+◌, length};
ghost use Rattle.line.specs.Frame.{flag_bits, ticks_of};
ghost use Rattle.line.specs.Line.{note_fits};
ghost use Rattle.drive.specs.Drive.{frame_opened, sent_by};
ghost use Rattle.listline.specs.ListLine.{before_note};
ghost use Rattle.station.specs.Station.{gone_in};
ghost use Rattle.station.specs.Walk.{flag_ticks};

use chip::Chip;
use feed::feed_frame;
use flags::{Between, FLAG};
use opening::{chip_with, open_frame, ticked};
use told::Gone;

// The ticks of a flag of its own before a note, so many having gone: the first has none.
fn flag_ticks(between: Between, earlier: usize) -> usize
    ensures { result ≡ flag_ticks between earlier }
{
    if earlier == 0 {
        return 0;
    }
    between.own_flag()
}

// The frame of a list's next note is opened with its first byte, so many having gone. The chip is written over: each further copy of it is dear to
// prove.
fn open_next(mut c: Chip, between: Between, earlier: usize, first: u8) -> Chip
    ensures { result ≡ frame_opened (before_note between earlier c) first }
{
    c = ticked(c, flag_ticks(between, earlier));
    open_frame(c, first)
}

// What is told of a note whose frame took so many ticks behind its opening flag.
fn gone(note: &[u8], behind: usize) -> Gone
    requires note_value { note_fits (length note.now) ≡ true }
    requires flag_bits_value { behind + length flag_bits ≡ ticks_of note.now }
    ensures { result ≡ gone_in note.now }
{
    let ticks = behind + FLAG;
    Gone {
        zeros: ticks - (8 * (note.len() + 2) + 16),
        ticks,
    }
}

// A list's next note goes out, so many having gone; a note alone is the first. That it fits is asked and no type holds it: the scan, or a test, has
// just shown it, and only this and `gone` need it.
pub(crate) fn send_next(mut c: Chip, between: Between, earlier: usize, note: &[u8]) -> (Gone, Chip)
    requires { note_fits (length note.now) ≡ true }
    ensures { result ≡ (gone_in note.now, sent_by (before_note between earlier c) note.now) }
{
    c = open_next(c, between, earlier, note[0]);
    let r = feed_frame(c.a.sender.shared, &note[1..]);
    c = chip_with(c, r.framer);
    (gone(note, r.ticks), c)
}
