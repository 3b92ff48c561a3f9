// The insertion table: what a byte is sent as behind each run of ones, how many zeros that inserts, and the run that is left; and the cells of
// four bits. Made here, and lent from there on. Assumes nothing.
#![tactic(auto)]

mod cells;
mod entries;

ghost use Rattle.std.specs.Prelude.{◌≡◌};
ghost use Rattle.stamp.specs.Stamp.{stamp_table, four_table};
ghost use Rattle.stamp.specs.Tables.{right_tables};

use table::checks;

// The stamps of the 256 bytes behind no one, behind one, up to four.
pub fn stamps() -> [u16; 1280]
    ensures { result ≡ stamp_table }
{
    entries::STAMPS
}

// The cells of four bits, in one number.
pub fn fours() -> [u32; 16]
    ensures { result ≡ four_table }
{
    cells::FOURS
}

// The tables of the byte engine, which are made once and lent from there on: the check's, the stamps and the cells of four bits.
#[derive(Clone, Copy)]
pub struct Tables {
    pub checks: [u16; 256],
    pub stamps: [u16; 1280],
    pub fours: [u32; 16],
}

impl Tables {
    // The right ones.
    pub fn make() -> Tables
        ensures { result ≡ right_tables }
    {
        Tables {
            checks: checks(),
            stamps: stamps(),
            fours: fours(),
        }
    }
}
