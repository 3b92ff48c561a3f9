// The zeros inserted into a note's frame, counted without writing its line. Assumes nothing.
#![tactic(auto)]

ghost use Rattle.std.specs.Prelude.{◌≡◌, ◌≤◌};
ghost use Rattle.line.specs.Bits.{low_bits};
ghost use Rattle.tally.specs.Tally.{ones_after, closed_after, Running, tallied};
ghost use Rattle.counting.specs.Counting.{zeros_in};

use line::{LONGEST_NOTE, ONES};
use mirror::mirrored_byte;
use tally::{Tally, top_ones};

// The ones behind a bit of content: one more, or those of the closed fives alone.
fn ones_after(ones: usize, closed: usize, b: bool) -> usize
    requires { ones ≤ 65535 }
    ensures { result ≡ ones_after ones closed b }
{
    if b { ones + 1 } else { closed }
}

// The ones in closed fives: five more once they are there.
fn closed_after(ones: usize, closed: usize) -> usize
    requires { closed ≤ 65535 }
    ensures { result ≡ closed_after ones closed }
{
    if ones == closed + 5 { ones } else { closed }
}

// A byte of content counted bit by bit, low bit first.
fn each_bit(t: Tally, v: u8) -> Tally
    requires { Running t }
    ensures { result ≡ tallied t (low_bits 8 v) }
{
    let mut ones = t.ones;
    let mut closed = t.closed;
    let mut rest = v;
    for _ in 0..8u8 {
        ones = ones_after(ones, closed, rest % 2 == 1);
        closed = closed_after(ones, closed);
        rest /= 2;
    }
    Tally { ones, closed }
}

// A byte of content counted. Five ones in a row within a byte have both bits in its middle, and its
// low ones count on from a run; a byte with neither closes no five, and leaves the ones at its top.
fn count_byte(t: Tally, v: u8) -> Tally
    requires { Running t }
    ensures { result ≡ tallied t (low_bits 8 v) }
{
    let run = t.ones - t.closed;
    if v / 8 % 4 == 3 {
        return each_bit(t, v);
    }
    if (v % 2 == 0) | (run == 0) {
        return Tally {
            ones: t.closed + top_ones(v),
            closed: t.closed,
        };
    }
    each_bit(t, v)
}

// The zeros inserted into a note's frame, counted as its bytes go by: behind them the check,
// complemented, x^15 first, which is the mirrored register's lowest. 0 for a note that is too long
// to have a frame.
pub fn count(note: &[u8]) -> usize
    ensures { result ≡ zeros_in note.now }
{
    if LONGEST_NOTE < note.len() {
        return 0;
    }
    let mut t = Tally { ones: 0, closed: 0 };
    let mut m = ONES;
    for v in note {
        t = count_byte(t, *v);
        m = mirrored_byte(m, *v);
    }
    let [low, high] = (m ^ ONES).to_le_bytes();
    t = count_byte(t, low);
    t = count_byte(t, high);
    t.closed / 5
}
