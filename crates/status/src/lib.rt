// 01, Interrupts and external status: D7 to D3 of RR0, latched together at a change. Assumes nothing.
#![tactic(auto)]

ghost use Rattle.std.specs.Prelude.{◌≡◌};
ghost use Rattle.status.specs.Status.{unlatched, changed, noticed, shown_bits, afresh};

// The five bits of RR0 that are latched together: D7 to D3.
#[derive(Clone, Copy, PartialEq, Eq, Default)]
pub struct Live {
    pub abort: bool,
    pub underrun: bool,
    pub cts: bool,
    pub hunt: bool,
    pub dcd: bool,
}

// External status: what is latched, and so shown; None where nothing is.
#[derive(Clone, Copy)]
pub struct Status {
    pub latched: Option<Live>,
}

impl Live {
    // A step from these bits to those latches: any change does, but D6 falling.
    fn changed(self, is: Live) -> bool
        ensures { result ≡ changed self is }
    {
        let underrun = self.underrun & is.underrun;
        Live { underrun, ..self } != is
    }
}

impl Status {
    // Nothing is latched.
    pub fn unlatched() -> Status
        ensures { result ≡ unlatched }
    {
        Status { latched: None }
    }

    // The status rule, after a step.
    #[tactic(auto, unfolding(crate::specs::Status::noticed))]
    pub fn noticed(self, was: Live, is: Live) -> Status
        ensures { result ≡ noticed self was is }
    {
        if self.latched.is_none() && was.changed(is) {
            return Status { latched: Some(is) };
        }
        self
    }

    // What RR0 shows.
    pub fn shown_bits(self, live: Live) -> Live
        ensures { result ≡ shown_bits self live }
    {
        self.latched.unwrap_or(live)
    }

    // Reset External/Status.
    #[tactic(auto, unfolding(crate::specs::Status::afresh))]
    pub fn afresh(self, live: Live) -> Status
        ensures { result ≡ afresh self live }
    {
        match self.latched {
            Some(shown) if shown.changed(live) => Status {
                latched: Some(live),
            },
            _ => Status::unlatched(),
        }
    }
}
