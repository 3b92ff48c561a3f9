// The receive queue of a channel: three entries, RR1's two latches beside them, and what RR1 and the interrupts see of it. Assumes nothing.
#![tactic(auto)]

ghost use Rattle.std.specs.Prelude.{◌≡◌};
ghost use Rattle.queue.specs.Queue.{empty, pushed, taken, oldest, waits, error_reset, rr1, rr1_told, special};

use entry::Entry;

// The entries, oldest first, in an array of three by value, as document 01 asks; count of them wait. parity and overrun are RR1's latches D4 and D5.
#[derive(Clone, Copy)]
pub struct Queue {
    pub count: u8,
    pub entries: [Entry; 3],
    pub parity: bool,
    pub overrun: bool,
}

// How many entries there is room for, and the place of the newest when all wait.
const ROOM: u8 = 3;

const NEWEST: usize = 2;

impl Queue {
    // A reset queue.
    pub fn empty() -> Queue
        ensures { result ≡ empty }
    {
        let e = Entry::none();
        Queue {
            entries: [e, e, e],
            count: 0,
            parity: false,
            overrun: false,
        }
    }

    // A character arrives; a fourth replaces the newest and is marked overrun.
    #[tactic(auto, unfolding(crate::specs::Queue::pushed), using(common::specs::Tools::tests))]
    pub fn push(self, e: Entry) -> Queue
        ensures { result ≡ pushed self e }
    {
        let mut entries = self.entries;
        if self.count == 0 {
            entries[0] = e;
            return Queue {
                count: 1,
                entries,
                parity: e.parity | self.parity,
                overrun: e.overrun | self.overrun,
            };
        }
        if self.count < ROOM {
            entries[usize::from(self.count)] = e;
            return Queue {
                count: self.count + 1,
                entries,
                ..self
            };
        }
        entries[NEWEST] = e.overran();
        Queue { entries, ..self }
    }

    // A data read takes the oldest, if one waits.
    #[tactic(auto, unfolding(crate::specs::Queue::taken), using(common::specs::Tools::tests))]
    pub fn take(self) -> Queue
        ensures { result ≡ taken self }
    {
        if self.count == 0 {
            return self;
        }
        let next = self.entries[1];
        let entries = [next, self.entries[2], Entry::none()];
        if self.count == 1 {
            return Queue {
                count: 0,
                entries,
                ..self
            };
        }
        Queue {
            count: self.count - 1,
            entries,
            parity: next.parity | self.parity,
            overrun: next.overrun | self.overrun,
        }
    }

    // The oldest entry, or none.
    #[tactic(auto, unfolding(crate::specs::Queue::oldest), using(common::specs::Tools::tests))]
    pub fn oldest(self) -> Entry
        ensures { result ≡ oldest self }
    {
        if self.count == 0 {
            return Entry::none();
        }
        self.entries[0]
    }

    // Whether a character waits.
    pub fn waits(self) -> bool
        ensures { result ≡ waits self }
    {
        self.count != 0
    }

    // The two latches fall, and nothing else.
    pub fn error_reset(self) -> Queue
        ensures { result ≡ error_reset self }
    {
        Queue {
            parity: false,
            overrun: false,
            ..self
        }
    }

    // RR1 as it is read.
    #[tactic(auto, unfolding(crate::specs::Queue::rr1))]
    pub fn rr1(self, sent: bool) -> u8
        ensures { result ≡ rr1 self sent }
    {
        self.oldest().rr1(sent, self.parity, self.overrun)
    }

    // RR1 with D6 told.
    #[tactic(auto, unfolding(crate::specs::Queue::rr1_told))]
    pub fn rr1_told(self, sent: bool, error: bool) -> u8
        ensures { result ≡ rr1_told self sent error }
    {
        self.oldest()
            .rr1_with(sent, self.parity, self.overrun, error)
    }

    // Whether the oldest entry is special; a wrong parity counts in receive interrupt mode 2 alone.
    #[tactic(auto, unfolding(crate::specs::Queue::special))]
    pub fn special(self, parity: bool) -> bool
        ensures { result ≡ special self parity }
    {
        self.oldest().special(parity)
    }
}
