// 01, Interrupts: a channel's sources, their priority, acknowledge and RETI. It knows no channel and no chip: which of the six sources are pending
// and which in service is told. Assumes nothing.
#![tactic(auto)]

ghost use Rattle.std.specs.Prelude.{◌≡◌};
ghost use Rattle.interrupts.specs.Interrupts.{no_sources, no_six, source_named, highest, any_of, with_source, may_take, acknowledged, ended};

// A source of the two channels, in the order of their priority: what stands before another lies above it.
#[derive(Clone, Copy, PartialEq, Eq, PartialOrd, Ord)]
pub enum Source {
    AReceive,
    ATransmit,
    AExternal,
    BReceive,
    BTransmit,
    BExternal,
}

// A channel's three interrupt sources, highest first.
#[derive(Clone, Copy)]
pub struct Sources {
    pub receive: bool,
    pub transmit: bool,
    pub external: bool,
}

// Those of both channels.
#[derive(Clone, Copy)]
pub struct Six {
    pub a: Sources,
    pub b: Sources,
}

impl Source {
    // The source of this level: 0 is A's receive, 5 B's external; above these there is none.
    #[tactic(auto, unfolding(crate::specs::Interrupts::source_named))]
    pub fn at(level: u8) -> Option<Source>
        ensures { result ≡ source_named level }
    {
        match level {
            0 => Some(Source::AReceive),
            1 => Some(Source::ATransmit),
            2 => Some(Source::AExternal),
            3 => Some(Source::BReceive),
            4 => Some(Source::BTransmit),
            5 => Some(Source::BExternal),
            _ => None,
        }
    }
}

impl Sources {
    // No source.
    pub fn none() -> Sources
        ensures { result ≡ no_sources }
    {
        Sources {
            receive: false,
            transmit: false,
            external: false,
        }
    }
}

impl Six {
    // No source of either channel.
    pub fn none() -> Six
        ensures { result ≡ no_six }
    {
        let n = Sources::none();
        Six { a: n, b: n }
    }

    // The highest of these sources, if there is one.
    #[tactic(auto, unfolding(crate::specs::Interrupts::highest))]
    pub fn highest(self) -> Option<Source>
        ensures { result ≡ highest self }
    {
        if self.a.receive {
            Some(Source::AReceive)
        } else if self.a.transmit {
            Some(Source::ATransmit)
        } else if self.a.external {
            Some(Source::AExternal)
        } else if self.b.receive {
            Some(Source::BReceive)
        } else if self.b.transmit {
            Some(Source::BTransmit)
        } else if self.b.external {
            Some(Source::BExternal)
        } else {
            None
        }
    }

    // There is a source among them.
    #[tactic(auto, unfolding(crate::specs::Interrupts::any_of))]
    pub fn any(self) -> bool
        ensures { result ≡ any_of self }
    {
        self.highest().is_some()
    }

    // One of the six, put on or off.
    #[tactic(auto, unfolding(crate::specs::Interrupts::with_source))]
    fn with_source(mut self, source: Source, on: bool) -> Six
        ensures { result ≡ with_source self source on }
    {
        match source {
            Source::AReceive => self.a.receive = on,
            Source::ATransmit => self.a.transmit = on,
            Source::AExternal => self.a.external = on,
            Source::BReceive => self.b.receive = on,
            Source::BTransmit => self.b.transmit = on,
            Source::BExternal => self.b.external = on,
        }
        self
    }

    // Of these, in service: the highest ends.
    #[tactic(auto, unfolding(crate::specs::Interrupts::ended))]
    pub fn reti(self) -> Six
        ensures { result ≡ ended self }
    {
        match self.highest() {
            Some(source) => self.with_source(source, false),
            None => self,
        }
    }
}

// A pending source lies above all those in service.
#[tactic(auto, unfolding(crate::specs::Interrupts::may_take))]
pub fn may_take(pending: Six, service: Six) -> bool
    ensures { result ≡ may_take pending service }
{
    match (pending.highest(), service.highest()) {
        (Some(waiting), Some(served)) => waiting < served,
        (waiting, _) => waiting.is_some(),
    }
}

// Acknowledge: the sources in service after it.
#[tactic(auto, unfolding(crate::specs::Interrupts::may_take, crate::specs::Interrupts::acknowledged))]
pub fn acknowledge(pending: Six, service: Six) -> Six
    ensures { result ≡ acknowledged pending service }
{
    match pending.highest() {
        Some(source) if may_take(pending, service) => service.with_source(source, true),
        _ => service,
    }
}
