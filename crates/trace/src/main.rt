// Reads events from standard input, four bytes each, plays them on a chip and prints a line for each. All that matters is in the crates chip,
// script and events.
#![tactic(auto)]

use chip::Chip;
use intake::read_full;
use std::io;
use text::Line;

// A line is printed.
fn say(rt: &impl Print, l: Line) -> io::Result<()> {
    match l.text.get(..l.size) {
        Some(bytes) => rt.write_all(bytes),
        None => Ok(()),
    }
}

// More lines than a run can have.
const LINES: u16 = 20000;

fn play(rt: &impl Print, events: &[u8]) -> io::Result<()> {
    let mut chip = Chip::reset();
    let mut at = 0;
    for _ in 0..LINES {
        let t = events::next(chip, events, at);
        if t.line.size == 0 {
            return Ok(());
        }
        say(rt, t.line)?;
        chip = t.chip;
        at = t.at;
    }
    Ok(())
}

fn main(rt: HostRuntime) -> io::Result<()> {
    // a byte more than are taken
    let mut buffer = [0u8; 65537];
    let n = read_full(&rt, &mut buffer)?;
    play(&rt, &buffer[..n])
}
