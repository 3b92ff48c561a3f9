// What a run of known answers tells: a line for each case, and how many were right. Assumes nothing.
ghost use Rattle.std.specs.Prelude.{◌≡◌};
ghost use Rattle.items.specs.Lines.{told, last_line, ended};

use crate::desk::{lay, part};
use crate::{Kind, Sheet};
use text::Line;

// At the end of a case its line: whether it was right, and its name.
pub(crate) fn tell(s: Sheet, bytes: &[u8], out: &mut [u8]) -> usize
    ensures value { result ≡ (told s bytes.now out.old).end }
    ensures out_after { out.new ≡ (told s bytes.now out.old).cells }
{
    if s.item.kind != Kind::Name {
        return s.told;
    }
    let verdict: &[u8] = if s.right { b"ok  " } else { b"BAD " };
    let end = lay(out, s.told, verdict);
    lay(out, end, part(bytes, s.item.start, s.item.behind))
}

// How many cases were right, of how many; none is bad.
fn last_line(s: Sheet) -> Line
    ensures { result ≡ last_line s }
{
    if s.cases == 0 {
        return Line::empty().with_all(b"BAD no cases, or too many\n");
    }
    Line::empty()
        .with_number(s.good, b' ')
        .with_all(b"of ")
        .with_number(s.cases, b' ')
        .with_all(b"right\n")
}

// The last line, behind all others. Gives the place behind.
pub fn ended(s: Sheet, out: &mut [u8]) -> usize
    ensures value { result ≡ (ended s out.old).end }
    ensures out_after { out.new ≡ (ended s out.old).cells }
{
    let l = last_line(s);
    let text = l.text;
    lay(out, s.told, part(&text, 0, l.size))
}
