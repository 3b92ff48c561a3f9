// The planner's side: a station sends notes through channel A of a chip, a list note by note. Any chip is accepted, whatever its channel A was
// doing. Assumes nothing.
#![tactic(auto)]

mod fitting;
mod rows;

ghost use Rattle.std.specs.Prelude.{◌≡◌, Ok};
ghost use Rattle.notes.specs.NoteList.{read_list, scanned};
ghost use Rattle.report.specs.Report.{report_of, rows_in};
ghost use Rattle.listline.specs.ListLine.{chip_after};
ghost use Rattle.station.specs.Station.{note_sent, send_of, list_sent, listed_of};

use crate::fitting::send_next;
use crate::rows::put_row;
use chip::Chip;
use common::Refusal;
use flags::Between;
use line::note_fits;
use notes::{Notes, scan};
pub use told::{Gone, Total};

// A note was sent, or why it was not, and the chip after it.
#[derive(Clone, Copy)]
pub struct Sent {
    pub told: Result<Gone, Refusal>,
    pub chip: Chip,
}

// A list was sent, or why it is refused, and the chip after it.
#[derive(Clone, Copy)]
pub struct ListSent {
    pub listed: Result<Total, Refusal>,
    pub chip: Chip,
}

// A row has four numbers: a note's number, its bytes, the zeros inserted and the ticks with both flags.
pub const ROW: usize = 4;

fn note_sent(told: Result<Gone, Refusal>, chip: Chip) -> Sent
    ensures { result ≡ note_sent told chip }
{
    Sent { told, chip }
}

fn list_sent(listed: Result<Total, Refusal>, chip: Chip) -> ListSent
    ensures { result ≡ list_sent listed chip }
{
    ListSent { listed, chip }
}

// One note through channel A: the frame goes out behind the flag that closed the one before, or behind a flag of its own.
#[tactic(auto, unfolding(crate::specs::Station::send_of))]
pub fn send(c: Chip, note: &[u8]) -> Sent
    ensures { result ≡ send_of c note.now }
{
    if !note_fits(note.len()) {
        return note_sent(Err(Refusal::NoteLength), c);
    }
    let (gone, chip) = send_next(c, Between::SharedFlag, 0, note);
    note_sent(Ok(gone), chip)
}

// The notes of a list of which the scan gave so many: each goes from the middle of the list, without a copy. The rows go into the lent part, all of
// them or, where it is too short, none.
fn send_notes(
    mut c: Chip,
    all: usize,
    list: &[u8],
    rows: &mut [usize],
    between: Between,
) -> ListSent
    requires { scanned (read_list list.now) ≡ Ok all }
    ensures value { result ≡ list_sent (listed_of (report_of between list.now)) (chip_after between c (read_list list.now)) }
    ensures rows_after { rows.new ≡ rows_in rows.old (report_of between list.now) }
{
    let told = all <= rows.len() / ROW;
    let mut notes = 0;
    let mut sum = 0;
    for note in Notes::of(list) {
        let (gone, chip) = send_next(c, between, notes, note);
        c = chip;
        put_row(rows, told, notes, note, gone);
        notes += 1;
        sum += gone.ticks;
    }
    let ticks = between.in_all(sum, notes);
    list_sent(Ok(Total { notes, ticks }), c)
}

// A list through channel A: it is checked first, then its notes go, one behind the other by this choice. The rows go into the lent part, all of
// them or, where it is too short, none.
pub fn send_list(c: Chip, list: &[u8], rows: &mut [usize], between: Between) -> ListSent
    ensures value { result ≡ list_sent (listed_of (report_of between list.now)) (chip_after between c (read_list list.now)) }
    ensures rows_after { rows.new ≡ rows_in rows.old (report_of between list.now) }
{
    match scan(list) {
        Ok(all) => send_notes(c, all, list, rows, between),
        Err(k) => list_sent(Err(k), c),
    }
}
