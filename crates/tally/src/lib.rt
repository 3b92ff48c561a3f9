// Ones counted in fives: a tally. What bits and bytes of content make of it stands in specs/.
// Assumes nothing.
#![tactic(auto)]

ghost use Rattle.std.specs.Prelude.{◌≡◌};
ghost use Rattle.tally.specs.Tally.{top_ones};

// Behind each five that is closed a zero is inserted, and the ones beyond the closed fives are the
// run.
#[derive(Clone, Copy)]
pub struct Tally {
    pub ones: usize,
    pub closed: usize,
}

// The ones at the top of a byte, four at most.
pub fn top_ones(v: u8) -> usize
    ensures { result ≡ top_ones v }
{
    match v {
        0..=127 => 0,
        128..=191 => 1,
        192..=223 => 2,
        224..=239 => 3,
        _ => 4,
    }
}
