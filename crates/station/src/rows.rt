// The row of a note that has gone. Assumes nothing.
ghost use Rattle.std.specs.Prelude.{◌≡◌, ◌+◌, ◌*◌, ◌<◌};
ghost use Rattle.report.specs.Report.{row_length, row_of, told_at};
ghost use Rattle.station.specs.Station.{gone_in};
ghost use Rattle.station.specs.Walk.{Room};

use crate::ROW;
use told::Gone;

// The row, where rows are told, of a note that has gone, so many having gone before it.
pub(crate) fn put_row(rows: &mut [usize], told: bool, earlier: usize, note: &[u8], gone: Gone)
    requires gone_value { gone ≡ gone_in note.now }
    requires room { Room told (row_length * earlier) rows.old }
    requires earlier_bound { earlier < 65536 }
    ensures { rows.new ≡ told_at told rows.old (row_length * earlier) (row_of (earlier + 1) note.now) }
{
    if told {
        let at = ROW * earlier;
        rows[at..at + ROW].copy_from_slice(&[earlier + 1, note.len(), gone.zeros, gone.ticks]);
    }
}
