// The number of zeros inserted into a note's frame, and whether its line fits into so many bytes. Assumes nothing.
#![tactic(auto)]

ghost use Rattle.std.specs.Prelude.{◌≡◌, ltb};
ghost use Rattle.zeros.specs.Zeros.{count_of, line_ticks, room_of};

use common::Refusal;
use counting::count;
use line::note_fits;

// How many zeros the note's frame has inserted.
#[tactic(auto, unfolding(crate::specs::Zeros::count_of))]
pub fn zeros_of(note: &[u8]) -> Result<usize, Refusal>
    ensures { result ≡ count_of note.now }
{
    if note_fits(note.len()) {
        Ok(count(note))
    } else {
        Err(Refusal::NoteLength)
    }
}

// Whether so many bytes are fewer than the note's line, where it has one. The zeros are counted only where they decide it.
#[tactic(auto, unfolding(crate::specs::Zeros::line_ticks))]
pub fn lacks_room(note: &[u8], room: usize) -> bool
    ensures { result ≡ ltb room (line_ticks note.now) }
{
    if !note_fits(note.len()) {
        return false;
    }
    let content = 8 * (note.len() + 2);
    if content + 16 + content / 5 <= room {
        return false;
    }
    room < content + 16 + count(note)
}

// What refuses the note's line in so many bytes, where anything does: 6, then 8.
#[tactic(auto, unfolding(crate::specs::Zeros::room_of, crate::specs::Zeros::line_ticks))]
pub fn line_fits(note: &[u8], room: usize) -> Result<(), Refusal>
    ensures { result ≡ room_of note.now room }
{
    if !note_fits(note.len()) {
        return Err(Refusal::NoteLength);
    }
    if lacks_room(note, room) {
        return Err(Refusal::NoRoom);
    }
    Ok(())
}
