// The stamp of a byte, by a table that is lent, whatever it holds, and the room for its cells.
// Assumes nothing.
#![tactic(auto)]

ghost use Rattle.std.specs.Prelude.{◌≡◌, ◌&&◌, ◌+◌, ◌-◌, leb, ltb};
ghost use Rattle.imprint.specs.Imprint.{stamp_for, stamp_room};

// The cells that are stored for a stamp; eight to ten of them count.
const STAMP_CELLS: usize = 12;
// Where the row of four ones begins, the last of five.
const LAST_ROW: usize = 1024;
// The cells that two stamps take at most, whatever the first one says: fifteen, and twelve stored.
const TWO_STAMPS: usize = 27;

// The stamp of a byte in any row. The byte's place is taken first, since the row is known last: it
// is cut out of the stamp before, and nothing else is between the two looks.
pub fn stamp_for(stamps: &[u16; 1280], row: usize, v: u8) -> u16
    ensures { result ≡ stamp_for stamps.now row v }
{
    if LAST_ROW < row {
        return 0;
    }
    let rows = &stamps[usize::from(v)..];
    rows[row]
}

// Whether fewer cells than a stamp's are left from a place on.
pub fn lacks_cells(len: usize, at: usize) -> bool
    ensures { result ≡ ltb (len - at) stamp_room }
{
    len.saturating_sub(at) < STAMP_CELLS
}

// Whether there is room for two bytes' cells, and a row for the first. The bound does not hang on the place, so that a loop works it out once.
pub fn two_fit(len: usize, at: usize, row: usize) -> bool
    ensures { result ≡ leb (at + 27) len && leb row 1024 }
{
    TWO_STAMPS <= len && at <= len - TWO_STAMPS && row <= LAST_ROW
}
