// Cells that a call must leave, each by its place. Assumes nothing.
ghost use Rattle.std.specs.Prelude.{◌≡◌};
ghost use Rattle.items.specs.Cells.{cell_at, cell_is, cells_are};

use crate::three_bytes;

// What a cell holds where nobody has written, and where there is none.
pub const UNTOUCHED: usize = 9;

// The bytes of a wanted cell: its place, and what it must hold.
const CELL: usize = 6;

fn cell(cells: &[usize], k: usize) -> usize
    ensures { result ≡ cell_at cells.now k }
{
    cells.get(k).copied().unwrap_or(UNTOUCHED)
}

// A wanted cell holds what it must.
fn cell_is(cells: &[usize], wanted: &[u8; CELL]) -> bool
    ensures { result ≡ cell_is cells.now wanted.now }
{
    let [a, b, c, high, middle, low] = *wanted;
    cell(cells, three_bytes(a, b, c)) == three_bytes(high, middle, low)
}

// Every wanted cell holds what it must.
#[tactic(auto, unfolding(crate::specs::Cells::cells_are))]
pub fn cells_are(cells: &[usize], wanted: &[u8]) -> bool
    ensures { result ≡ cells_are cells.now wanted.now }
{
    let (wanted, _) = wanted.as_chunks::<CELL>();
    wanted.iter().all(|w| cell_is(cells, w))
}
