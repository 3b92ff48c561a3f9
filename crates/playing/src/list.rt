// A list sent through the chip. Assumes nothing.
ghost use Rattle.std.specs.Prelude.{◌≡◌};
ghost use Rattle.report.specs.Report.{report_of, rows_in};
ghost use Rattle.station.specs.Station.{listed_of};
ghost use Rattle.playing.specs.List.{rows, list_gave};

use chip::Chip;
use common::Refusal;
use flags::Between;
use items::Sheet;
use told::Total;

// What rows hold where nobody has written.
const UNTOUCHED: usize = 9;

// Room for the rows of every list.
const ROWS: usize = 87380;

#[tactic(auto, unfolding(crate::specs::List::rows))]
fn rows() -> [usize; ROWS]
    ensures { result ≡ rows }
{
    [UNTOUCHED; ROWS]
}

// Nobody asks for the chip behind a list.
fn sent(c: Chip, list: &[u8], rows: &mut [usize], between: Between) -> Result<Total, Refusal>
    ensures value { result ≡ listed_of (report_of between list.now) }
    ensures rows_after { rows.new ≡ rows_in rows.old (report_of between list.now) }
{
    station::send_list(c, list, rows, between).listed
}

// 1 if a list through the chip gave what it must, with room for so many numbers of its rows as its item says.
pub(crate) fn list_value(c: Chip, s: Sheet, desk: &[u8]) -> u8
    ensures { result ≡ list_gave s desk.now }
{
    let mut space = rows();
    let rows: &mut [usize] = &mut space;
    let room = s.item.room(rows.len());
    let l = sent(
        c,
        items::part(desk, 0, s.given),
        &mut rows[..room],
        calls::between_of(s.item),
    );
    calls::list_value(s, l, rows, desk)
}
