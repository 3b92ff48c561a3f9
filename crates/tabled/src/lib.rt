// A note's content put down a byte at a time behind the opening flag, by tables that are lent, whatever they hold. Assumes nothing.
#![tactic(auto)]

ghost use Rattle.std.specs.Prelude.{◌≡◌, []};
ghost use Rattle.lookup.specs.Lookup.{sent_check};
ghost use Rattle.bytewise.specs.Bytewise.{plate};
ghost use Rattle.tabled.specs.Tabled.{bytes_stamped, content_stamped, ahead};

use bytewise::{Press, put_byte, put_two};
use imprint::two_fit;
use lookup::looked_up;
use stamp::Tables;

// A preset check, and what complements one, in a whole word.
const PRESET: usize = 0xFFFF;

// How far a note's content has come: the press, and the check's register.
#[derive(Clone, Copy)]
struct Going {
    press: Press,
    check: usize,
}

// Behind the opening flag the note's bytes, two at a time while there are two and they fit, and then one by one.
fn put_text(out: &mut [u8], note: &[u8], tables: &Tables) -> Going
    ensures { ahead tables.now.checks tables.now.stamps tables.now.fours [] out.new result ≡ content_stamped tables.now.checks tables.now.stamps tables.now.fours out.old note.now }
{
    let mut press = Press { at: 8, row: 0 };
    let mut check = PRESET;
    let mut rest = note;
    // no for: a pair that lacks room ends it, and what is left goes on below
    while let [v, w, others @ ..] = rest {
        if !two_fit(out.len(), press.at, press.row) {
            break;
        }
        press = put_two(out, &tables.stamps, &tables.fours, press, *v, *w);
        check = looked_up(&tables.checks, check, *v);
        check = looked_up(&tables.checks, check, *w);
        rest = others;
    }
    for v in rest {
        press = put_byte(out, &tables.stamps, &tables.fours, press, *v);
        check = looked_up(&tables.checks, check, *v);
    }
    Going { press, check }
}

// The check's two bytes: complemented, x^15 first, which is the mirrored register's lowest. Gives the place behind them.
fn put_check(out: &mut [u8], tables: &Tables, g: Going) -> usize
    ensures value { result ≡ (bytes_stamped tables.now.stamps tables.now.fours (plate out.old g.press) (sent_check g.check)).press.at }
    ensures out_after { out.new ≡ (bytes_stamped tables.now.stamps tables.now.fours (plate out.old g.press) (sent_check g.check)).buffer }
{
    let check = g.check ^ PRESET;
    // the check is held in a whole word, of which to_le_bytes would give eight
    let (stamps, fours) = (&tables.stamps, &tables.fours);
    let mut q = put_byte(out, stamps, fours, g.press, (check % 256) as u8);
    q = put_byte(out, stamps, fours, q, (check / 256 % 256) as u8);
    q.at
}

// The note's bytes, then their check. Gives the place behind them.
pub fn put_content(out: &mut [u8], note: &[u8], tables: &Tables) -> usize
    ensures value { result ≡ (content_stamped tables.now.checks tables.now.stamps tables.now.fours out.old note.now).press.at }
    ensures out_after { out.new ≡ (content_stamped tables.now.checks tables.now.stamps tables.now.fours out.old note.now).buffer }
{
    let g = put_text(out, note, tables);
    put_check(out, tables, g)
}
