// Reads a note list from standard input, checks it, sends its notes through a chip, and prints for each its number, bytes, zeros inserted
// and ticks; last the notes and the ticks in all. A bad list prints its refusal alone. Between two notes it sends a closing and an opening flag, and
// with the word --shared one flag that is both. All that matters is in the crate station.
#![tactic(auto)]

use chip::Chip;
use common::Refusal;
use flags::Between;
use intake::read_full;
use station::{ROW, Total};
use std::env::{Env, FillError};
use std::io;
use std::io::{Cursor, Write};

// Room for the rows of every list: a note takes three bytes of it or more.
const ROWS: usize = ROW * 21845;

// Room for a list, and a byte more than a list may have.
const LIST: usize = 65536;

// Room for text that waits to be written.
const TEXT: usize = 4096;

// A row has at most four numbers of twenty digits, and a byte behind each.
const LINE: usize = 84;

// The text that waits is written.
fn write_out(rt: &impl Print, text: &mut Cursor<[u8; TEXT]>) -> io::Result<()> {
    let end = usize::try_from(text.position()).unwrap_or(TEXT).min(TEXT);
    rt.write_all(&text.get_ref()[..end])?;
    text.set_position(0);
    Ok(())
}

// The rows, then the last line. Rows wait in memory of the program's own, so that nothing is allocated, and go out in large pieces.
fn tell_all(rt: &impl Print, rows: &[usize], total: Total) -> io::Result<()> {
    let mut text = Cursor::new([0; TEXT]);
    for row in rows.as_chunks::<ROW>().0.iter().take(total.notes) {
        let [number, bytes, zeros, ticks] = *row;
        writeln!(text, "{number} {bytes} {zeros} {ticks}")?;
        if ((TEXT - LINE) as u64) < text.position() {
            write_out(rt, &mut text)?;
        }
    }
    write_out(rt, &mut text)?;
    println!(rt; "end {} {}", total.notes, total.ticks)
}

// The whole report.
fn tell(rt: &impl Print, rows: &[usize], told: Result<Total, Refusal>) -> io::Result<()> {
    match told {
        Err(k) => println!(rt; "refused {}", k.number()),
        Ok(total) => tell_all(rt, rows, total),
    }
}

// The list that is read goes through a reset chip, its notes one behind the other by this choice.
fn send(rt: &(impl Input + Print), between: Between) -> io::Result<()> {
    let mut buffer = [0; LIST];
    let n = read_full(rt, &mut buffer)?;
    let mut rows = [0; ROWS];
    let sent = station::send_list(Chip::reset(), &buffer[..n], &mut rows, between);
    tell(rt, &rows, sent.listed)
}

// The one word that it may be given.
fn is_shared(rt: &impl Env) -> bool {
    let mut word = [0u8; 16];
    let n = rt.arg(1, &mut word).unwrap_or(0);
    word[..n] == b"--shared"[..] && !has_arg(rt, 2)
}

// Whether there is an argument of this number; that before the first is the program's name.
fn has_arg(rt: &impl Env, i: usize) -> bool {
    !matches!(rt.arg(i, &mut []), Err(FillError::NotPresent))
}

fn main(rt: HostRuntime) -> io::Result<()> {
    if !has_arg(&rt, 1) {
        return send(&rt, Between::usual());
    }
    if is_shared(&rt) {
        return send(&rt, Between::SharedFlag);
    }
    eprintln!(rt; "usage: sendlist [--shared] <LIST")
}
