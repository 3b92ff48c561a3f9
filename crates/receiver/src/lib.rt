// 01, Receiving: one channel's receiver: which mode hears, off, RR0 D7, and what is handed to the queue. Settings come decoded. Assumes nothing.
#![tactic(auto)]

ghost use Rattle.std.specs.Prelude.{◌≡◌};
ghost use Rattle.receiver.specs.Receiver.{listener_of, listener_in, reception_in, by_listener, by_assembly, by_matched, silent};
ghost use Rattle.receiver.specs.Receiver.{hear_in_characters, hear_in_blocks, hear_in_frames};
ghost use Rattle.receiver.specs.Receiver.{reset, dropped, enter_hunt, mode_changed, preset_check, hunting, shows_as, hear};

use asynchronous::{Assembled, Assembly, Format};
use bytesync::{Matched, Matching, Reception};
use common::{Mode, in_blocks, in_sdlc};
use entry::Entry;
use line::ONES;
use sdlc::{Addressing, Content, Listened, Listener};
use shared::preset_for;

// A channel's settings as a tick finds them. on: WR3 D0 and, with auto enables, DCD.
#[derive(Clone, Copy)]
pub struct Receiving {
    pub mode: Mode,
    pub on: bool,
    pub addressing: Addressing,
    pub format: Format,
    pub matching: Matching,
}

// The asynchronous character, what SDLC has heard of a frame, what Monosync and Bisync have heard of a block, and what all modes share: the
// check, and RR0 D7. In the order that ticks like (channel's Channel).
#[derive(Clone, Copy)]
pub struct Receiver {
    pub assembly: Assembly,
    pub content: Content,
    pub reception: Reception,
    pub check: u16,
    pub broken: bool,
}

// What a tick gives: the receiver, and what goes into the queue.
#[derive(Clone, Copy)]
pub struct Heard {
    pub receiver: Receiver,
    pub entry: Option<Entry>,
}

impl Receiver {
    // A reset receiver.
    pub fn reset() -> Receiver
        ensures { result ≡ reset }
    {
        Receiver {
            content: Content::at(false, false, 0),
            assembly: Assembly::none(false),
            reception: Reception::searching(false),
            check: ONES,
            broken: false,
        }
    }

    // SDLC's part of it.
    pub fn listener(self) -> Listener
        ensures { result ≡ listener_of self }
    {
        Listener {
            content: self.content,
            check: self.check,
            broken: self.broken,
        }
    }

    // That part put back.
    pub fn with_listener(self, l: Listener) -> Receiver
        ensures { result ≡ listener_in self l }
    {
        Receiver {
            content: l.content,
            check: l.check,
            broken: l.broken,
            ..self
        }
    }

    // What Monosync and Bisync have heard, put back.
    pub fn with_reception(self, reception: Reception) -> Receiver
        ensures { result ≡ reception_in self reception }
    {
        Receiver { reception, ..self }
    }

    // What the modes' ticks give, with the receiver put together again; each mode has its own parts, so there is one for each.
    fn by_listener(self, h: Listened) -> Heard
        ensures { result ≡ by_listener self h }
    {
        Heard {
            receiver: self.with_listener(h.listener),
            entry: h.entry,
        }
    }

    fn by_assembly(self, h: Assembled) -> Heard
        ensures { result ≡ by_assembly self h }
    {
        let receiver = Receiver {
            assembly: h.assembly,
            broken: h.broken,
            ..self
        };
        Heard {
            receiver,
            entry: h.entry,
        }
    }

    fn by_matched(self, h: Matched) -> Heard
        ensures { result ≡ by_matched self h }
    {
        let receiver = Receiver {
            reception: h.reception,
            check: h.check,
            ..self
        };
        Heard {
            receiver,
            entry: h.entry,
        }
    }

    // The unfinished part, a wait for a 1 and the count of ones are dropped: every mode at rest.
    fn dropped(self, hunt: bool, broken: bool) -> Receiver
        ensures { result ≡ dropped self hunt broken }
    {
        Receiver {
            content: Content::at(hunt, false, 0),
            assembly: Assembly::none(false),
            reception: Reception::searching(hunt),
            check: self.check,
            broken,
        }
    }

    // WR3 D4, in SDLC, Monosync and Bisync.
    pub fn enter_hunt(self) -> Receiver
        ensures { result ≡ enter_hunt self }
    {
        self.dropped(true, self.broken)
    }

    // An accepted WR4 changed the mode, to one that hunts or to another.
    pub fn mode_changed(self, hunts: bool) -> Receiver
        ensures { result ≡ mode_changed self hunts }
    {
        self.dropped(hunts, false)
    }

    // The check is preset at once; bits in the delay are counted after it.
    pub fn preset_check(mut self, mode: Mode) -> Receiver
        ensures { result ≡ preset_check mode self }
    {
        self.check = preset_for(mode);
        self
    }

    // RR0 D4.
    pub fn hunting(self, g: Receiving) -> bool
        ensures { result ≡ hunting g self }
    {
        (in_sdlc(g.mode) & self.content.hunt) | (in_blocks(g.mode) & self.reception.hunt)
    }

    // Hunt in every mode and D7 are as in that one: RR0 shows no difference.
    pub fn shows_as(self, was: Receiver) -> bool
        ensures { result ≡ shows_as self was }
    {
        (self.broken == was.broken)
            & ((self.content.hunt == was.content.hunt)
                & (self.reception.hunt == was.reception.hunt))
    }

    // A tick that hands nothing over.
    fn silent(self) -> Heard
        ensures { result ≡ silent self }
    {
        Heard {
            receiver: self,
            entry: None,
        }
    }

    // A receive tick of asynchronous mode.
    fn hear_character(self, g: Receiving, bit: bool) -> Heard
        ensures { result ≡ hear_in_characters g self bit }
    {
        if g.on {
            return self.by_assembly(self.assembly.hear(g.format, self.broken, bit));
        }
        self.dropped(false, false).silent()
    }

    // A receive tick of Monosync or Bisync.
    fn hear_block(self, g: Receiving, bit: bool) -> Heard
        ensures { result ≡ hear_in_blocks g self bit }
    {
        if g.on {
            return self.by_matched(g.matching.hear(self.reception, self.check, bit));
        }
        self.dropped(true, false).silent()
    }

    // A receive tick of SDLC.
    fn hear_frame(self, g: Receiving, bit: bool) -> Heard
        ensures { result ≡ hear_in_frames g self bit }
    {
        if g.on {
            return self.by_listener(listening::hear(self.listener(), g.addressing, bit));
        }
        self.dropped(true, false).silent()
    }

    // A receive tick.
    #[tactic(auto, unfolding(crate::specs::Receiver::hear))]
    pub fn hear(self, g: Receiving, bit: bool) -> Heard
        ensures { result ≡ hear g self bit }
    {
        match g.mode {
            Mode::NoMode => self.silent(),
            Mode::Asynchronous => self.hear_character(g, bit),
            Mode::Monosync | Mode::Bisync => self.hear_block(g, bit),
            Mode::Sdlc => self.hear_frame(g, bit),
        }
    }
}
