// The note list: the check of a whole list, and its notes one behind the other. Assumes nothing.
#![tactic(auto)]

ghost use Rattle.std.specs.Prelude.{◌≡◌};
ghost use Rattle.std.specs.Iterator.{YieldsFirstRef, item_count};
ghost use Rattle.notes.specs.NoteList.{read_list, scanned};
ghost use Rattle.notes.specs.Notes.{notes_of, notes_left};

use common::Refusal;
use head::{LENGTH_BYTES, head_at, note_at};

// The version byte that opens a list.
pub const VERSION: u8 = 1;
// The place of the first note.
pub const FIRST_NOTE: usize = 1;
// A list has at most so many bytes.
pub const LONGEST_LIST: usize = 65535;

// The whole list, note by note: how many notes it has, or why it is refused; the first bad note decides. The loop is left from inside by its
// label, as document 01 asks.
#[tactic(auto, unfolding(crate::specs::NoteList::read_list))]
pub fn scan(list: &[u8]) -> Result<usize, Refusal>
    ensures { result ≡ scanned (read_list list.now) }
{
    if LONGEST_LIST < list.len() {
        return Err(Refusal::LongList);
    }
    if list.is_empty() || list[0] != VERSION {
        return Err(Refusal::NoList);
    }
    let mut i = FIRST_NOTE;
    let mut n = 0;
    'notes: loop {
        match head_at(list, i) {
            Ok(None) => break 'notes Ok(n),
            Ok(Some(k)) => {
                i += LENGTH_BYTES + k;
                n += 1;
            }
            Err(k) => break 'notes Err(k),
        }
    }
}

// The notes of a list, up to the first that is none or bad: each a part of the list, without a copy.
#[derive(Drop)]
pub struct Notes<'a> {
    list: &'a [u8],
    at: usize,
}

impl<'a> Notes<'a> {
    // From the first on.
    pub fn of(list: &'a [u8]) -> Notes<'a>
        ensures { notes_left result ≡ notes_of list.now }
    {
        Notes {
            list,
            at: FIRST_NOTE,
        }
    }
}

impl<'a> Iterator for Notes<'a> {
    type Item = &'a [u8];

    ghost next_gives = { YieldsFirstRef notes_left };

    ghost remaining = { item_count notes_left };

    fn next(&mut self) -> Option<&'a [u8]> {
        let Ok(Some(k)) = head_at(self.list, self.at) else {
            return None;
        };
        let text = note_at(self.list, self.at);
        self.at = self.at + LENGTH_BYTES + k;
        Some(text)
    }
}
