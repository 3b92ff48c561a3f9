// 01, Interrupts: the vector of a source, and what an acknowledge answers. Assumes nothing.
#![tactic(auto)]

ghost use Rattle.std.specs.Prelude.{◌≡◌, ◌≤◌};
ghost use Rattle.interrupts.specs.Interrupts.{source_named};
ghost use Rattle.vector.specs.Vector.{code_of, vector_of, acked_number, acked_value};

use common::Refusal;
use interrupts::Source;

// Whether A's receive is special, and B's.
#[derive(Clone, Copy)]
pub struct Special {
    pub a: bool,
    pub b: bool,
}

// What an acknowledge answers: a vector, or refusal 4; an enum with a case for each and no Result, as document 01 asks.
#[derive(Clone, Copy)]
pub enum Acked {
    Vector(u8),
    NothingWaits,
}

// The vector's bits 3-1 for a source, or for none.
#[tactic(auto, unfolding(crate::specs::Vector::code_of))]
fn code(source: Option<Source>, special: Special) -> u8
    ensures value { result ≡ code_of source special }
    ensures upper_bound { result ≤ 7 }
{
    match source {
        Some(Source::AReceive) if special.a => 7,
        Some(Source::AReceive) => 6,
        Some(Source::ATransmit) => 4,
        Some(Source::AExternal) => 5,
        Some(Source::BReceive) if special.b => 3,
        Some(Source::BReceive) => 2,
        Some(Source::BTransmit) => 0,
        Some(Source::BExternal) => 1,
        None => 3,
    }
}

// The vector for a source, or for none, of this WR2; status affects it or not.
#[tactic(auto, unfolding(crate::specs::Vector::vector_of))]
pub fn vector_for(wr2: u8, affected: bool, source: Option<Source>, special: Special) -> u8
    ensures { result ≡ vector_of wr2 affected source special }
{
    if affected {
        wr2 / 16 * 16 + code(source, special) * 2 + wr2 % 2
    } else {
        wr2
    }
}

// The same for the source of this level, 6 and above being none.
pub fn vector(wr2: u8, affected: bool, level: u8, special: Special) -> u8
    ensures { result ≡ vector_of wr2 affected (source_named level) special }
{
    vector_for(wr2, affected, Source::at(level), special)
}

impl Acked {
    // The paper's number of the refusal, 0 for none.
    pub fn number(self) -> u8
        ensures { result ≡ acked_number self }
    {
        match self {
            Acked::Vector(_) => 0,
            Acked::NothingWaits => Refusal::NothingWaits.number(),
        }
    }

    // The vector, 0 for none.
    pub fn value(self) -> u8
        ensures { result ≡ acked_value self }
    {
        match self {
            Acked::Vector(v) => v,
            Acked::NothingWaits => 0,
        }
    }
}
