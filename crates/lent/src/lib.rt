// The line writer by whole bytes, with tables that are lent, whatever they hold: for many notes they are made once. Assumes nothing.
#![tactic(auto)]

ghost use Rattle.std.specs.Prelude.{◌≡◌, true, ◌++◌, ◌≤◌, length, take, drop};
ghost use Rattle.line.specs.Line.{note_fits};
ghost use Rattle.laid.specs.Laid.{frame_stamped};
ghost use Rattle.lent.specs.Lent.{zeros_stamped, write_by, buffer_by};

use common::Refusal;
use laid::lay_frame;
use stamp::Tables;
use zeros::line_fits;

// A note's frame laid out at a place; gives the zeros inserted, which are what the content takes beyond its own bits.
fn lay_at(tables: &Tables, note: &[u8], out: &mut [u8], at: usize) -> usize
    requires note_value { note_fits (length note.now) ≡ true }
    requires at_in_bounds { at ≤ length out.old }
    ensures value { result ≡ zeros_stamped tables.now.checks tables.now.stamps tables.now.fours (drop at out.old) note.now }
    ensures out_after { out.new ≡ take at out.old ++ frame_stamped tables.now.checks tables.now.stamps tables.now.fours (drop at out.old) note.now }
{
    let least = 8 + 8 * (note.len() + 2);
    let end = lay_frame(&mut out[at..], note, tables);
    end.saturating_sub(least)
}

// The note's frame, one bit per byte, at a place inside the caller's buffer.
pub fn write_line_by(
    tables: &Tables,
    note: &[u8],
    out: &mut [u8],
    at: usize,
) -> Result<usize, Refusal>
    ensures value { result ≡ write_by tables.now.checks tables.now.stamps tables.now.fours note.now out.old at }
    ensures out_after { out.new ≡ buffer_by tables.now.checks tables.now.stamps tables.now.fours note.now out.old at }
{
    line_fits(note, out.len().saturating_sub(at))?;
    Ok(lay_at(tables, note, out, at))
}
