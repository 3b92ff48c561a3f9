// A printed heading, whose check is worked out once, and the checks of the notes that begin with it. Assumes nothing.
#![tactic(auto)]

ghost use Rattle.std.specs.Prelude.{◌≡◌, ◌+◌};
ghost use Rattle.line.specs.Line.{note_fits};
ghost use Rattle.heading.specs.Heading.{heading_of, with_body, with_checked_body};

use common::Refusal;
use joining::{CheckRule, check_of, check_text, joined};
use line::{ONES, SDLC, note_fits};

// What notes begin with: its check, as SDLC sends it, and its bytes.
#[derive(Clone, Copy)]
pub struct Heading {
    pub check: u16,
    pub length: usize,
}

// Whether a heading and a body of so many bytes are a note.
fn fit_together(heading: usize, body: usize) -> bool
    ensures { result ≡ note_fits (heading + body) }
{
    note_fits(heading.saturating_add(body))
}

impl Heading {
    // Of a text.
    pub fn of(text: &[u8]) -> Heading
        ensures { result ≡ heading_of text.now }
    {
        Heading {
            check: check_of(CheckRule::sdlc(), text),
            length: text.len(),
        }
    }

    // The check of the note that is this heading and a body, as SDLC sends it: the body's text is gone on with from the heading's check.
    #[tactic(auto, unfolding(crate::specs::Heading::with_body))]
    pub fn with_body(self, body: &[u8]) -> Result<u16, Refusal>
        ensures { result ≡ with_body self body.now }
    {
        if !fit_together(self.length, body.len()) {
            return Err(Refusal::NoteLength);
        }
        Ok(check_text(SDLC, self.check ^ ONES, body) ^ ONES)
    }

    // The same where a body's check and its bytes are at hand, and not its text.
    #[tactic(auto, unfolding(crate::specs::Heading::with_checked_body))]
    pub fn with_checked_body(self, body: u16, k: usize) -> Result<u16, Refusal>
        ensures { result ≡ with_checked_body self body k }
    {
        if !fit_together(self.length, k) {
            return Err(Refusal::NoteLength);
        }
        Ok(joined(CheckRule::sdlc(), self.check, body, k))
    }
}
