// A byte of content put down at once, by tables that are lent, whatever they hold. Where there is no room, nothing is put down. Assumes nothing.
#![tactic(auto)]

ghost use Rattle.std.specs.Prelude.{◌≡◌, ◌+◌, ◌≤◌, ◌<◌, length};
ghost use Rattle.std.proofs.lemmas.List.Edits.{sets};
ghost use Rattle.imprint.specs.Imprint.{four_by, twelve_by};
ghost use Rattle.bytewise.specs.Bytewise.{plate, behind, byte_stamped, two_stamped};

use imprint::{lacks_cells, stamp_for, two_fit};

// Where the next byte goes, and the row of the stamps for it: 256 for each of the ones in a row before it.
#[derive(Clone, Copy)]
pub struct Press {
    pub at: usize,
    pub row: usize,
}

// Four cells at once.
fn put_four(out: &mut [u8], fours: &[u32; 16], at: usize, n: usize)
    requires n_bound { n < 16 }
    requires at_in_bounds { at + 4 ≤ length out.old }
    ensures { out.new
        ≡ sets out.old at (four_by fours.now n) }
{
    out[at..at + 4].copy_from_slice(&fours[n].to_le_bytes());
}

// A stamp's twelve cells, in three stores, whatever of them counts: what follows is stored over the
// rest.
fn put_twelve(out: &mut [u8], fours: &[u32; 16], at: usize, e: u16)
    requires { at + 12 ≤ length out.old }
    ensures { out.new ≡ twelve_by fours.now out.old at e }
{
    put_four(out, fours, at, usize::from(e % 16));
    put_four(out, fours, at + 4, usize::from(e / 16 % 16));
    put_four(out, fours, at + 8, usize::from(e / 2048 % 4));
}

// A stamp's cells where there is room for them, and where the next byte goes.
fn put_stamp(out: &mut [u8], fours: &[u32; 16], at: usize, e: u16) -> Press
    requires { at + 12 ≤ length out.old }
    ensures value { result ≡ behind at e }
    ensures out_after { out.new ≡ twelve_by fours.now out.old at e }
    ensures at_bound { result.at ≤ at + 15 }
{
    put_twelve(out, fours, at, e);
    Press {
        at: at + 8 + usize::from(e / 8192),
        row: usize::from(e / 256 % 8) * 256,
    }
}

// A byte of content with its inserted zeros, where there is room for any byte's cells.
pub fn put_byte(out: &mut [u8], stamps: &[u16; 1280], fours: &[u32; 16], p: Press, v: u8) -> Press
    ensures value { result ≡ (byte_stamped stamps.now fours.now (plate out.old p) v).press }
    ensures out_after { out.new ≡ (byte_stamped stamps.now fours.now (plate out.old p) v).buffer }
{
    if lacks_cells(out.len(), p.at) {
        return p;
    }
    let e = stamp_for(stamps, p.row, v);
    put_stamp(out, fours, p.at, e)
}

// Two bytes of content with their inserted zeros. Where they fit, one test serves both.
pub fn put_two(
    out: &mut [u8],
    stamps: &[u16; 1280],
    fours: &[u32; 16],
    p: Press,
    v: u8,
    w: u8,
) -> Press
    ensures value { result ≡ (two_stamped stamps.now fours.now (plate out.old p) v w).press }
    ensures out_after { out.new ≡ (two_stamped stamps.now fours.now (plate out.old p) v w).buffer }
{
    if two_fit(out.len(), p.at, p.row) {
        let e = stamp_for(stamps, p.row, v);
        let q = put_stamp(out, fours, p.at, e);
        let f = stamp_for(stamps, q.row, w);
        return put_stamp(out, fours, q.at, f);
    }
    let q = put_byte(out, stamps, fours, p, v);
    put_byte(out, stamps, fours, q, w)
}
