// A pen over a lent buffer, one bit to a cell: content with its inserted zeros, byte by byte, and flags. Where there is no room, nothing is
// put down. Assumes nothing.
#![tactic(auto)]

ghost use Rattle.std.specs.Prelude.{◌≡◌, [], ◌∷◌, ◌+◌, ◌≤◌, length};
ghost use Rattle.line.specs.Bits.{odd};
ghost use Rattle.line.specs.Insertion.{stuff};
ghost use Rattle.pen.specs.Pen.{sheet, bits_put, byte_put, flag_put};

use line::Insertion;

// Where the next bit goes, and how many ones in a row went before it.
#[derive(Clone, Copy)]
pub struct Pen {
    pub at: usize,
    pub run: u8,
}

// The most cells that a byte takes, eight bits and two zeros.
const BYTE_CELLS: usize = 10;
// The flag's cells.
const FLAG_CELLS: usize = 8;

const FLAG: [u8; 8] = [0, 1, 1, 1, 1, 1, 1, 0];

// The low bit of v, with the zero that it owes.
fn put_bit(out: &mut [u8], p: Pen, v: u8) -> Pen
    requires { p.at + length (stuff p.run (odd v ∷ [])) ≤ length out.old }
    ensures value { result ≡ (bits_put (sheet out.old p) (odd v ∷ [])).pen }
    ensures out_after { out.new ≡ (bits_put (sheet out.old p) (odd v ∷ [])).buffer }
{
    let at = p.at;
    let k = Insertion::counted(p.run, v % 2 == 1);
    out[at] = v % 2;
    let next = at + 1;
    if k.owed {
        out[next] = 0;
        return Pen {
            at: next + 1,
            run: k.run,
        };
    }
    Pen {
        at: next,
        run: k.run,
    }
}

// A byte of content, low bit first, where there is room for any byte.
pub fn put_byte(out: &mut [u8], p: Pen, v: u8) -> Pen
    ensures value { result ≡ (byte_put (sheet out.old p) v).pen }
    ensures out_after { out.new ≡ (byte_put (sheet out.old p) v).buffer }
{
    if out.len().saturating_sub(p.at) < BYTE_CELLS {
        return p;
    }
    let mut q = p;
    let mut rest = v;
    for _ in 0..8u8 {
        q = put_bit(out, q, rest);
        rest /= 2;
    }
    q
}

// A flag, into which no zero is inserted, where there is room for it.
pub fn put_flag(out: &mut [u8], at: usize)
    ensures { out.new ≡ flag_put out.old at }
{
    if out.len().saturating_sub(at) < FLAG_CELLS {
        return;
    }
    out[at..at + FLAG_CELLS].copy_from_slice(&FLAG);
}
