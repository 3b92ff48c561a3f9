// The second line writer, a byte at a time: one note's frame, one bit per byte, at a place inside the caller's buffer. Its tables are made once for
// the note; who writes many notes lends them (`lent::write_line_by`). Assumes nothing.
#![tactic(auto)]

ghost use Rattle.std.specs.Prelude.{◌≡◌};
ghost use Rattle.line.specs.Frame.{frame};
ghost use Rattle.writer.specs.Writer.{write_of, buffer_after};

use common::Refusal;
use lent::write_line_by;
use stamp::Tables;

// The note's frame, one bit per byte, at a place inside the caller's buffer: what writer::write_line does, a byte at a time.
pub fn write_line(note: &[u8], out: &mut [u8], at: usize) -> Result<usize, Refusal>
    ensures value { result ≡ write_of note.now out.old at }
    ensures out_after { out.new ≡ buffer_after (write_of note.now out.old at) (frame note.now) out.old at }
{
    write_line_by(&Tables::make(), note, out, at)
}
