// What a station tells of a note and of a list that went, without the chip that it hands back. What was refused is told as a Refusal. Assumes
// nothing.
#![tactic(auto)]

ghost use Rattle.std.specs.Prelude.{◌≡◌};
ghost use Rattle.told.specs.Answers.{told_zeros, told_ticks};

use common::Refusal;

// Of a note: the zeros inserted and the ticks with both flags.
#[derive(Clone, Copy)]
pub struct Gone {
    pub zeros: usize,
    pub ticks: usize,
}

// Of a list: how many notes and how many ticks in all.
#[derive(Clone, Copy)]
pub struct Total {
    pub notes: usize,
    pub ticks: usize,
}

// The zeros inserted into a note, 0 where it was refused.
pub fn zeros(told: Result<Gone, Refusal>) -> usize
    ensures { result ≡ told_zeros told }
{
    told.unwrap_or(Gone { zeros: 0, ticks: 0 }).zeros
}

// Its ticks with both flags, 0 where it was refused.
pub fn ticks(told: Result<Gone, Refusal>) -> usize
    ensures { result ≡ told_ticks told }
{
    told.unwrap_or(Gone { zeros: 0, ticks: 0 }).ticks
}
