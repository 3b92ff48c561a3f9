// What stands at a place of a note list, and the text of a note as a part of the list. Assumes nothing.
#![tactic(auto)]

ghost use Rattle.std.specs.Prelude.{◌≡◌, length};
ghost use Rattle.head.specs.NoteHead.{head_of, Within, note_at};

use common::Refusal;
use line::note_fits;

// A note's length has two bytes.
pub const LENGTH_BYTES: usize = 2;

// What stands at place i: nothing more, a note of so many bytes, or a bad note; a note that stands there fits and lies within the list.
#[tactic(auto, unfolding(crate::specs::NoteHead::head_of))]
pub fn head_at(list: &[u8], i: usize) -> Result<Option<usize>, Refusal>
    ensures value { result ≡ head_of list.now i }
    ensures within { Within (length list.now) i result }
{
    if list.len() <= i {
        return Ok(None);
    }
    let left = list.len() - i;
    if left < LENGTH_BYTES {
        return Err(Refusal::CutList);
    }
    let k = usize::from(list[i]) * 256 + usize::from(list[i + 1]);
    if !note_fits(k) {
        return Err(Refusal::NoteLength);
    }
    if left - LENGTH_BYTES < k {
        return Err(Refusal::CutList);
    }
    Ok(Some(k))
}

// The text of the note at place i, a part of the list; the empty part where no note stands.
pub fn note_at(list: &[u8], i: usize) -> &[u8]
    ensures { result.now ≡ note_at list.now i }
{
    let Ok(Some(k)) = head_at(list, i) else {
        return &[];
    };
    let text = i + LENGTH_BYTES;
    &list[text..text + k]
}
