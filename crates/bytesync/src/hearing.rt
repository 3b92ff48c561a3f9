// 02, P3: a receive tick while on: hunt by pattern, characters, and the check one character behind. Assumes nothing.
ghost use Rattle.std.specs.Prelude.{◌≡◌};
ghost use Rattle.bytesync.specs.Hearing.{unmatched, shift_in, counted, sync_seen, hunting};
ghost use Rattle.bytesync.specs.Hearing.{leads, entering, arrived, assembling, hear_block};

use crate::{Block, Matched, Matching, Reception, Syncs};
use entry::Entry;
use line::check_byte;

// A bit enters from above. These are sixteen bits, those of listening eight: a function over both would be no plainer.
pub(crate) fn shift_in(b: bool, s: u16) -> u16
    ensures { result ≡ shift_in b s }
{
    s / 2 + u16::from(b) * 32768
}

// One bit more since hunt began.
fn counted(n: u8) -> u8
    ensures { result ≡ counted n }
{
    if n < 16 { n + 1 } else { 16 }
}

impl Syncs {
    // The last bits, n of them since hunt began, are the sync.
    #[tactic(auto, unfolding(crate::specs::Hearing::sync_seen))]
    fn seen(self, n: u8, s: u16) -> bool
        ensures { result ≡ sync_seen self n s }
    {
        if self.both {
            return (16 <= n) & (s == self.pair());
        }
        (8 <= n) & (s / 256 == u16::from(self.second))
    }

    // The character is the next leading sync.
    fn leads(self, d: Block, v: u8) -> bool
        ensures { result ≡ leads self d v }
    {
        let expected = if self.both & !d.turn {
            self.first
        } else {
            self.second
        };
        d.leading & (v == expected)
    }
}

impl Reception {
    // A tick that hands nothing over.
    fn unmatched(self, check: u16) -> Matched
        ensures { result ≡ unmatched self check }
    {
        Matched {
            reception: self,
            check,
            entry: None,
        }
    }
}

impl Matching {
    // A bit in hunt.
    #[tactic(auto, unfolding(crate::specs::Hearing::hunting))]
    fn hunting(self, r: Reception, check: u16, b: bool) -> Matched
        ensures { result ≡ hunting self r check b }
    {
        let s = shift_in(b, r.bits);
        let n = counted(r.count);
        if self.syncs.seen(n, s) {
            return Reception::at(false, Block::none(true)).unmatched(check);
        }
        let on = Reception {
            hunt: true,
            bits: s,
            count: n,
            ..r
        };
        on.unmatched(check)
    }

    // The check when the next character is complete.
    #[tactic(auto, unfolding(crate::specs::Hearing::entering))]
    fn entering(self, d: Block, check: u16) -> u16
        ensures { result ≡ entering self d check }
    {
        match d.held {
            Some(v) if self.checking => check_byte(self.polynomial, check, v),
            _ => check,
        }
    }

    // A character is complete.
    #[tactic(auto, unfolding(crate::specs::Hearing::arrived))]
    fn arrived(self, d: Block, check: u16, v: u8) -> Matched
        ensures { result ≡ arrived self d check v }
    {
        let leading = self.syncs.leads(d, v);
        let block = Block {
            leading,
            turn: !d.turn,
            held: Some(v),
        };
        Matched {
            reception: Reception::at(false, block),
            check: self.entering(d, check),
            entry: if leading & self.strip {
                None
            } else {
                Some(Entry::received(v, false, false, false, false))
            },
        }
    }

    // A bit of a character.
    #[tactic(auto, unfolding(crate::specs::Hearing::assembling))]
    fn assembling(self, r: Reception, check: u16, b: bool) -> Matched
        ensures { result ≡ assembling self r check b }
    {
        let s = shift_in(b, r.bits);
        if r.count < 7 {
            let on = Reception {
                hunt: false,
                bits: s,
                count: r.count + 1,
                ..r
            };
            return on.unmatched(check);
        }
        self.arrived(r.block, check, (s / 256) as u8)
    }

    // One receive tick.
    #[tactic(auto, unfolding(crate::specs::Hearing::hear_block))]
    pub fn hear(self, r: Reception, check: u16, b: bool) -> Matched
        ensures { result ≡ hear_block self r check b }
    {
        if r.hunt {
            self.hunting(r, check, b)
        } else {
            self.assembling(r, check, b)
        }
    }
}
