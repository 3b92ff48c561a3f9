// Known answers, read from standard input as scripts/assemble makes them of scripts/*.txt: cases, each a hard reset and a run of items. An item makes
// one call and compares what it gives with what it must give. A line says of each case whether all its answers are right, and the last how many are.
// All that matters is in the crate playing, and in items and calls below it.
#![tactic(auto)]

ghost use Rattle.std.specs.Prelude.{◌≡◌, length};
ghost use Rattle.items.specs.Lines.{ended};
ghost use Rattle.playing.specs.Playing.{played};

use intake::read_full;
use std::io;

// Room for all items.
const INPUT: usize = 262144;

// Room for the bytes of a call and those that it must leave, and for all lines.
const SPACE: usize = 65600;

fn input() -> [u8; INPUT]
    ensures { 262144 ≡ length result }
{
    [0; INPUT]
}

fn space() -> [u8; SPACE]
    ensures { 65600 ≡ length result }
{
    [0; SPACE]
}

// The items are played, and the last line told; gives where the lines end.
fn told(input: &[u8], desk: &mut [u8], out: &mut [u8]) -> usize
    ensures value { result ≡ (ended (played input.now desk.old out.old).sheet (played input.now desk.old out.old).out).end }
    ensures out_after { out.new ≡ (ended (played input.now desk.old out.old).sheet (played input.now desk.old out.old).out).cells }
{
    let s = playing::play(input, desk, out);
    items::ended(s, out)
}

// The items are read and played, and all lines told at once.
fn run(
    rt: &(impl Input + Print),
    input: &mut [u8],
    desk: &mut [u8],
    out: &mut [u8],
) -> io::Result<()> {
    let n = read_full(rt, input)?;
    let end = told(items::all_read(input, n), desk, out);
    rt.write_all(items::part(out, 0, end))
}

fn main(rt: HostRuntime) -> io::Result<()> {
    let mut input = input();
    let mut desk = space();
    let mut out = space();
    run(&rt, &mut input, &mut desk, &mut out)
}
