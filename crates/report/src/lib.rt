// What sending a list tells: the report's definitions (specs/Report.antt), and the page timer, which counts a list's ticks without a chip,
// its notes sharing their flags.
// Assumes nothing.
#![tactic(auto)]

mod note;

ghost use Rattle.std.specs.Prelude.{◌≡◌};
ghost use Rattle.flags.specs.declared.Between.TheVariants.{SharedFlag};
ghost use Rattle.report.specs.Report.{report_of, pages_of};

use crate::note::note_ticks;
use common::Refusal;
use flags::Between;
use notes::{Notes, scan};

// The page timer: as many ticks as sending the list takes, a flag shared by two notes.
pub fn page_ticks(list: &[u8]) -> Result<usize, Refusal>
    ensures { result ≡ pages_of (report_of SharedFlag list.now) }
{
    let notes = scan(list)?;
    let mut sum = 0;
    for note in Notes::of(list) {
        sum += note_ticks(note);
    }
    Ok(Between::SharedFlag.in_all(sum, notes))
}
