// The line writer: one note's frame, one bit per byte, at a place inside the caller's buffer. Assumes nothing.
#![tactic(auto)]

ghost use Rattle.std.specs.Prelude.{◌≡◌, ◌++◌, ◌≤◌, length, drop};
ghost use Rattle.line.specs.Bits.{cells};
ghost use Rattle.line.specs.Frame.{frame, zeros_of, ticks_of};
ghost use Rattle.writer.specs.Writer.{write_of, buffer_after};

use common::Refusal;
use layout::lay_frame;
use zeros::line_fits;

// The frame from the start of what is lent, where there is room for it; gives the zeros inserted.
fn lay_line(out: &mut [u8], note: &[u8]) -> usize
    requires { ticks_of note.now ≤ length out.old }
    ensures value { result ≡ zeros_of note.now }
    ensures out_after { out.new ≡ cells (frame note.now) ++ drop (ticks_of note.now) out.old }
{
    lay_frame(out, note) - 8 - 8 * (note.len() + 2)
}

// The note's frame, one bit per byte, at a place inside the caller's buffer.
pub fn write_line(note: &[u8], out: &mut [u8], at: usize) -> Result<usize, Refusal>
    ensures value { result ≡ write_of note.now out.old at }
    ensures out_after { out.new ≡ buffer_after (write_of note.now out.old at) (frame note.now) out.old at }
{
    line_fits(note, out.len().saturating_sub(at))?;
    Ok(lay_line(&mut out[at..], note))
}
