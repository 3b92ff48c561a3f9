// What a line is made of: the check register, zero insertion, and which notes have a frame. Assumes nothing.
#![tactic(auto)]

ghost use Rattle.std.specs.Prelude.{◌≡◌};
ghost use Rattle.line.specs.Bits.{low_bits};
ghost use Rattle.line.specs.Check.{check_step, check_over};
ghost use Rattle.line.specs.Insertion.{counted};
ghost use Rattle.line.specs.Line.{note_fits};

// x^16+x^12+x^5+1, the polynomial of SDLC.
pub const SDLC: u16 = 0x1021;
// A preset check, and what complements one.
pub const ONES: u16 = 0xFFFF;
// The longest note that a frame carries.
pub const LONGEST_NOTE: usize = 2048;

// The register after one bit, over the polynomial p: it moves up, and takes p where what goes out of x^15 differs from the bit. The bit meets x^15 first,
// so that the back end needs no branch, which no processor could foresee: with one the check of a text takes twice as long.
pub fn check_step(p: u16, r: u16, b: bool) -> u16
    ensures { result ≡ check_step p r b }
{
    let met = r ^ (u16::from(b) * 32768);
    let moved = r % 32768 * 2;
    if 32768 <= met { moved ^ p } else { moved }
}

// The register after the eight bits of a byte, low bit first.
pub fn check_byte(p: u16, r: u16, v: u8) -> u16
    ensures { result ≡ check_over p r (low_bits 8 v) }
{
    let mut x = r;
    let mut rest = v;
    for _ in 0..8u8 {
        x = check_step(p, x, rest % 2 == 1);
        rest /= 2;
    }
    x
}

// Where zero insertion stands behind a bit of content: the ones in a row, and whether a 0 is owed, to be sent next.
#[derive(Clone, Copy)]
pub struct Insertion {
    pub run: u8,
    pub owed: bool,
}

impl Insertion {
    // A bit of content counted: after five ones in a row a 0 is owed, and the run starts again.
    pub fn counted(run: u8, b: bool) -> Insertion
        ensures { result ≡ counted run b }
    {
        // in sixteen bits, where one more always has room: a loop over bits is spared a test
        let ones = if b { u16::from(run) + 1 } else { 0 };
        if 5 <= ones {
            return Insertion { run: 0, owed: true };
        }
        Insertion {
            run: ones as u8,
            owed: false,
        }
    }
}

// A note of this length has a frame.
pub fn note_fits(n: usize) -> bool
    ensures { result ≡ note_fits n }
{
    0 < n && n <= LONGEST_NOTE
}
