// 02, P7: how notes follow each other on the line, and how many ticks so many notes take. specs/Flags.antt has the line of a list, proofs/Laws.antt
// that it is as long as its ticks. Assumes nothing.
#![tactic(auto)]

ghost use Rattle.std.specs.Prelude.{◌≡◌, length};
ghost use Rattle.flags.specs.Flags.{usual, own_flag, in_all};

// What stands between two notes: one flag that both closes and opens, or a closing and an opening one.
#[derive(Clone, Copy)]
pub enum Between {
    SharedFlag,
    TwoFlags,
}

// A flag's ticks.
pub const FLAG: usize = 8;

impl Between {
    // What the list program does if nothing else is asked for.
    pub fn usual() -> Between
        ensures { result ≡ usual }
    {
        Between::TwoFlags
    }

    // The ticks of the flag that only opens a next note.
    pub fn own_flag(self) -> usize
        ensures { result ≡ length (own_flag self) }
    {
        match self {
            Between::SharedFlag => 0,
            Between::TwoFlags => FLAG,
        }
    }

    // The ticks of so many notes, one behind the other, from the sum of theirs; a shared flag counts once.
    pub fn in_all(self, sum: usize, notes: usize) -> usize
        ensures { result ≡ in_all self sum notes }
    {
        match self {
            Between::SharedFlag => {
                sum.saturating_sub(FLAG.saturating_mul(notes.saturating_sub(1)))
            }
            Between::TwoFlags => sum,
        }
    }
}
