// Bytes for a call are laid on a desk, pattern by pattern. Assumes nothing.
ghost use Rattle.std.specs.Prelude.{◌≡◌};
ghost use Rattle.items.specs.Desk.{part_of, all_read, desk, laid, laid_times};

// A part of bytes, from a place to a place, as far as there are bytes.
pub fn part(bytes: &[u8], from: usize, to: usize) -> &[u8]
    ensures { result.now ≡ part_of bytes.now from to }
{
    let end = to.min(bytes.len());
    &bytes[from.min(end)..end]
}

// The bytes that were read, so many; none where there may have been more.
pub fn all_read(bytes: &[u8], n: usize) -> &[u8]
    ensures { result.now ≡ all_read bytes.now n }
{
    if n < bytes.len() { &bytes[..n] } else { &[] }
}

// A pattern, where there is room for it. Gives the place behind.
pub(crate) fn lay(cells: &mut [u8], end: usize, pattern: &[u8]) -> usize
    ensures value { result ≡ (laid pattern.now (desk cells.old end)).end }
    ensures cells_after { cells.new ≡ (laid pattern.now (desk cells.old end)).cells }
{
    let behind = end.saturating_add(pattern.len());
    if cells.len() < behind {
        return end;
    }
    cells[end..behind].copy_from_slice(pattern);
    behind
}

// So many times, one behind the other.
pub(crate) fn lay_times(cells: &mut [u8], end: usize, pattern: &[u8], times: usize) -> usize
    ensures value { result ≡ (laid_times times pattern.now (desk cells.old end)).end }
    ensures cells_after { cells.new ≡ (laid_times times pattern.now (desk cells.old end)).cells }
{
    let mut at = end;
    for _ in 0..times {
        at = lay(cells, at, pattern);
    }
    at
}
