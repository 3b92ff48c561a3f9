// Reads a note list from standard input. Its first note is the printed heading of all others, which are bodies. For each body it prints: number,
// bytes of heading and body together, and the check of the two as SDLC sends it, three times: gone on with from the heading's check, joined from the
// heading's check and the body's, and worked out whole. The first bit sent is the lowest, as 906E is the check of 123456789. Where heading and body
// together are no note, its refusal stands for the first two. Last `end` and the number of bodies. A bad list prints `refused N` alone.
#![tactic(auto)]

use common::Refusal;
use heading::Heading;
use intake::read_full;
use joining::{CheckRule, check_of};
use notes::{Notes, scan};
use std::io;

// Room for a list, and a byte more than a list may have.
const LIST: usize = 65536;

// Room for any two notes.
const PAIR: usize = 4096;

fn print_check(rt: &impl Print, check: u16) -> io::Result<()> {
    print!(rt; "{:04x}", check.reverse_bits())
}

fn print_answer(rt: &impl Print, answer: Result<u16, Refusal>) -> io::Result<()> {
    match answer {
        Ok(check) => print_check(rt, check),
        Err(k) => print!(rt; "refused {}", k.number()),
    }
}

// The check of both texts in a row, in a buffer that has room for any two notes.
fn print_whole(rt: &impl Print, front: &[u8], back: &[u8]) -> io::Result<()> {
    let mut whole = [0; PAIR];
    let middle = front.len().min(PAIR);
    let n = middle + back.len().min(PAIR - middle);
    whole[..middle].copy_from_slice(&front[..middle]);
    whole[middle..n].copy_from_slice(&back[..n - middle]);
    print_check(rt, check_of(CheckRule::sdlc(), &whole[..n]))
}

fn print_row(
    rt: &impl Print,
    number: usize,
    front: &[u8],
    heading: Heading,
    body: &[u8],
) -> io::Result<()> {
    let bytes = front.len().saturating_add(body.len());
    let body_check = check_of(CheckRule::sdlc(), body);
    print!(rt; "{number} {bytes} ")?;
    print_answer(rt, heading.with_body(body))?;
    print!(rt; " ")?;
    print_answer(rt, heading.with_checked_body(body_check, body.len()))?;
    print!(rt; " ")?;
    print_whole(rt, front, body)?;
    println!(rt)
}

// The rows of all bodies, and their number: all notes but the first.
fn print_list(rt: &impl Print, list: &[u8], count: usize) -> io::Result<()> {
    let mut notes = Notes::of(list);
    if let Some(front) = notes.next() {
        let heading = Heading::of(front);
        for (number, body) in (1..count).zip(notes) {
            print_row(rt, number, front, heading, body)?;
        }
    }
    println!(rt; "end {}", count.saturating_sub(1))
}

fn main(rt: HostRuntime) -> io::Result<()> {
    let mut buffer = [0; LIST];
    let n = read_full(&rt, &mut buffer)?;
    let list = &buffer[..n];
    match scan(list) {
        Err(k) => println!(&rt; "refused {}", k.number()),
        Ok(count) => print_list(&rt, list, count),
    }
}
