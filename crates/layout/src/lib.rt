// A note's frame laid out in a lent buffer, from its start, as far as there is room. Assumes nothing.
#![tactic(auto)]

ghost use Rattle.std.specs.Prelude.{◌≡◌};
ghost use Rattle.line.specs.Check.{ones};
ghost use Rattle.line.specs.Frame.{with_check};
ghost use Rattle.pen.specs.Pen.{sheet, pen_at};
ghost use Rattle.layout.specs.Layout.{bytes_put, mirrored_over, content_put, frame_put};

use line::ONES;
use mirror::mirrored_byte;
use pen::{Pen, put_byte, put_flag};

// Where a text ends, and the mirrored check register over it.
#[derive(Clone, Copy)]
struct Text {
    pen: Pen,
    m: u16,
}

// A text's bytes one after another.
fn put_text(out: &mut [u8], p: Pen, text: &[u8]) -> Text
    ensures pen_value { result.pen ≡ (bytes_put (sheet out.old p) text.now).pen }
    ensures m_value { result.m ≡ mirrored_over ones text.now }
    ensures out_after { out.new
        ≡ (bytes_put (sheet out.old p) text.now).buffer }
{
    let mut pen = p;
    let mut m = ONES;
    for v in text {
        pen = put_byte(out, pen, *v);
        m = mirrored_byte(m, *v);
    }
    Text { pen, m }
}

// Behind the opening flag the note's bytes, then their check: complemented, x^15 first, which is
// the mirrored register's lowest. Gives the place behind them.
fn put_content(out: &mut [u8], note: &[u8]) -> usize
    ensures value { result ≡ (bytes_put (sheet out.old (pen_at 8 0))
        (with_check note.now)).pen.at }
    ensures out_after { out.new ≡ (bytes_put (sheet out.old (pen_at 8 0))
        (with_check note.now)).buffer }
{
    let content = put_text(out, Pen { at: 8, run: 0 }, note);
    let check = content.m ^ ONES;
    let end = put_text(out, content.pen, &check.to_le_bytes());
    end.pen.at
}

// The frame, flags included; gives the place of the flag that closes it.
pub fn lay_frame(out: &mut [u8], note: &[u8]) -> usize
    ensures value { result ≡ (content_put out.old note.now).pen.at }
    ensures out_after { out.new ≡ frame_put out.old note.now }
{
    put_flag(out, 0);
    let end = put_content(out, note);
    put_flag(out, end);
    end
}
