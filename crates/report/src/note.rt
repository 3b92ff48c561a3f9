// One note's ticks, from the count of its inserted zeros. Assumes nothing.
ghost use Rattle.std.specs.Prelude.{◌≡◌};
ghost use Rattle.zeros.specs.Zeros.{line_ticks};

use zeros::zeros_of;

// A note's ticks, with both flags; 0 of one that has no frame.
pub(crate) fn note_ticks(note: &[u8]) -> usize
    ensures { result ≡ line_ticks note.now }
{
    match zeros_of(note) {
        Ok(zeros) => 8 * (note.len() + 2) + 16 + zeros,
        Err(_) => 0,
    }
}
