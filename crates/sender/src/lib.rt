// 01, Sending: one channel's sender. What all modes share stands here once; the mode says which of them ticks. Assumes nothing.
#![tactic(auto)]

ghost use Rattle.std.specs.Prelude.{◌≡◌, true, false};
ghost use Rattle.sender.specs.Sender.{ticked, framer_of, framer_in, by_framer, by_typist, by_syncing, with_break, tick};
ghost use Rattle.sender.specs.Sender.{with_shared, block_in, tick_in_sdlc, tick_in_blocks};
ghost use Rattle.sender.specs.Sender.{written, aborted, check_preset, latch_cleared, idled};
ghost use Rattle.sender.specs.Sender.{at_reset, all_sent, buffer_ready};

use asynchronous::{Character, Typed, Typing};
use bytesync::{BlockUnit, Synced, Syncing};
use common::{Mode, in_blocks, in_sdlc};
use line::Insertion;
use sdlc::{Framed, Framer, Framing, LineUnit, not_counted};
use shared::{Shared, preset_for};

// What all modes share, the asynchronous character, SDLC's unit and zero insertion, and the unit of Monosync and Bisync, in the order that ticks
// like (channel's Channel).
#[derive(Clone, Copy)]
pub struct Sender {
    pub shared: Shared,
    pub character: Character,
    pub unit: LineUnit,
    pub insertion: Insertion,
    pub block: BlockUnit,
}

// What registers and CTS say of sending. broken: WR5 D4.
#[derive(Clone, Copy)]
pub struct Sending {
    pub mode: Mode,
    pub broken: bool,
    pub framing: Framing,
    pub typing: Typing,
    pub syncing: Syncing,
}

// What a tick gives; loaded: a byte or a character left the buffer. Each mode's tick has such a type of its own (`Framed`, `Typed`, `Synced`): one
// generic type would have one name for framer, character, unit and sender, which the definitions tell apart.
#[derive(Clone, Copy)]
pub struct Ticked {
    pub bit: bool,
    pub loaded: bool,
    pub sender: Sender,
}

impl Ticked {
    // A break sends 0 in place of the bit.
    fn with_break(mut self, broken: bool) -> Ticked
        ensures { result ≡ with_break broken self }
    {
        if broken {
            self.bit = false;
        }
        self
    }
}

impl Sender {
    // After a channel reset.
    pub fn reset() -> Sender
        ensures { result ≡ at_reset }
    {
        Sender {
            shared: Shared::reset(),
            character: Character::none(),
            unit: LineUnit::Mark,
            insertion: not_counted(),
            block: BlockUnit::Mark,
        }
    }

    // SDLC's part of it.
    pub fn framer(self) -> Framer
        ensures { result ≡ framer_of self }
    {
        Framer {
            unit: self.unit,
            insertion: self.insertion,
            shared: self.shared,
        }
    }

    // That part put back.
    pub fn with_framer(self, f: Framer) -> Sender
        ensures { result ≡ framer_in self f }
    {
        Sender {
            shared: f.shared,
            unit: f.unit,
            insertion: f.insertion,
            ..self
        }
    }

    // What the modes' ticks give, with the sender put together again.
    fn by_framer(self, t: Framed) -> Ticked
        ensures { result ≡ by_framer self t }
    {
        Ticked {
            bit: t.bit,
            loaded: t.loaded,
            sender: self.with_framer(t.framer),
        }
    }

    fn by_typist(self, t: Typed) -> Ticked
        ensures { result ≡ by_typist self t }
    {
        Ticked {
            bit: t.bit,
            loaded: t.loaded,
            sender: Sender {
                shared: t.shared,
                character: t.character,
                ..self
            },
        }
    }

    fn by_syncing(self, t: Synced) -> Ticked
        ensures { result ≡ by_syncing self t }
    {
        Ticked {
            bit: t.bit,
            loaded: t.loaded,
            sender: self.with_block(t.unit, t.shared),
        }
    }

    // Another unit of Monosync or Bisync, and what all modes share.
    pub fn with_block(self, block: BlockUnit, shared: Shared) -> Sender
        ensures { result ≡ block_in self block shared }
    {
        Sender {
            shared,
            block,
            ..self
        }
    }

    // One transmit tick of Monosync or Bisync.
    fn tick_block(self, g: Sending) -> Ticked
        ensures { result ≡ tick_in_blocks g self }
    {
        self.by_syncing(g.syncing.tick(self.block, self.shared))
            .with_break(g.broken)
    }

    // One transmit tick of SDLC.
    pub fn tick_framed(self, f: Framing, broken: bool) -> Ticked
        ensures { result ≡ tick_in_sdlc f broken self }
    {
        self.by_framer(framing::tick(self.framer(), f))
            .with_break(broken)
    }

    // A tick with no mode.
    fn unticked(self) -> Ticked
        ensures { result ≡ ticked true false self }
    {
        Ticked {
            bit: true,
            loaded: false,
            sender: self,
        }
    }

    // One transmit tick.
    #[tactic(auto, unfolding(crate::specs::Sender::tick))]
    pub fn tick(self, g: Sending) -> Ticked
        ensures { result ≡ tick g self }
    {
        match g.mode {
            Mode::NoMode => self.unticked(),
            Mode::Asynchronous => self
                .by_typist(g.typing.tick(self.character, self.shared))
                .with_break(g.broken),
            Mode::Monosync | Mode::Bisync => self.tick_block(g),
            Mode::Sdlc => self.tick_framed(g.framing, g.broken),
        }
    }

    // Another buffer, latch or check.
    fn with_shared(self, shared: Shared) -> Sender
        ensures { result ≡ with_shared self shared }
    {
        Sender { shared, ..self }
    }

    // A data write.
    pub fn write(self, v: u8) -> Sender
        ensures { result ≡ written self v }
    {
        self.with_shared(self.shared.filled(v))
    }

    // Send Abort.
    pub fn send_abort(self, g: Sending) -> Sender
        ensures { result ≡ aborted g self }
    {
        if in_sdlc(g.mode) {
            return self.with_framer(framing::send_abort(self.framer(), g.framing));
        }
        self
    }

    // Preset Tx check.
    pub fn preset_check(self, mode: Mode) -> Sender
        ensures { result ≡ check_preset mode self }
    {
        self.with_shared(self.shared.check_set(preset_for(mode)))
    }

    // Clear the underrun latch.
    pub fn clear_latch(self) -> Sender
        ensures { result ≡ latch_cleared self }
    {
        self.with_shared(self.shared.cleared())
    }

    // A change of mode: every mode at rest.
    pub fn idle(self) -> Sender
        ensures { result ≡ idled self }
    {
        Sender {
            shared: self.shared,
            ..Sender::reset()
        }
    }

    // RR1 D0.
    pub fn all_sent(self, g: Sending) -> bool
        ensures { result ≡ all_sent g self }
    {
        in_sdlc(g.mode)
            | in_blocks(g.mode)
            | (!self.character.under_way() & self.shared.buffer.is_none())
    }

    // RR0 D2.
    pub fn buffer_ready(self, g: Sending) -> bool
        ensures { result ≡ buffer_ready g self }
    {
        if in_blocks(g.mode) {
            return self.shared.buffer.is_none() & !self.block.sends_check();
        }
        self.shared.buffer.is_none() & !self.unit.checking()
    }
}
