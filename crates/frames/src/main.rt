// Reads a note list from standard input and prints each note's line, flags included, as 0s and 1s, a line a note, by the byte engine: its tables
// are made once and lent for all notes. A bad list prints `refused N` alone.
#![tactic(auto)]

ghost use Rattle.std.specs.Prelude.{◌≡◌, length};

use intake::read_full;
use lent::write_line_by;
use line::LONGEST_NOTE;
use notes::{Notes, scan};
use stamp::Tables;
use std::io;

const ZERO: u8 = b'0';

// Room for a list, and a byte more than a list may have; and for a line.
const ROOM: usize = 65536;

fn room() -> [u8; ROOM]
    ensures { 65536 ≡ length result }
{
    [0; ROOM]
}

// The ticks of a note of so many bytes with so many zeros inserted, both flags among them.
fn ticks_of(bytes: usize, zeros: usize) -> usize {
    if LONGEST_NOTE < bytes {
        return 0;
    }
    (8 * (bytes + 2) + 16).saturating_add(zeros)
}

fn print_line(rt: &impl Print, tables: &Tables, note: &[u8], line: &mut [u8]) -> io::Result<()> {
    match write_line_by(tables, note, line, 0) {
        Err(k) => println!(rt; "refused {}", k.number()),
        Ok(zeros) => {
            let ticks = ticks_of(note.len(), zeros).min(line.len());
            for cell in &mut line[..ticks] {
                *cell = ZERO + *cell % 2;
            }
            rt.write_all(&line[..ticks])?;
            rt.write_all(b"\n")
        }
    }
}

// The lines of all notes.
fn print_lines(rt: &impl Print, list: &[u8], line: &mut [u8]) -> io::Result<()> {
    let tables = Tables::make();
    for note in Notes::of(list) {
        print_line(rt, &tables, note, line)?;
    }
    Ok(())
}

fn main(rt: HostRuntime) -> io::Result<()> {
    let mut buffer = room();
    let mut line = room();
    let n = read_full(&rt, &mut buffer)?;
    let list = &buffer[..n];
    match scan(list) {
        Err(k) => println!(&rt; "refused {}", k.number()),
        Ok(_) => print_lines(&rt, list, &mut line),
    }
}
