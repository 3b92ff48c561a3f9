// Most ticks, in a form of their own: nothing but the sender, or nothing but the receiver, changes (bench/README.md). Assumes nothing.
ghost use Rattle.std.specs.Prelude.{◌≡◌};
ghost use Rattle.channel.specs.declared.Answer.TheVariants.{Done};
ghost use Rattle.channel.specs.Channel.{answered};
ghost use Rattle.ticking.specs.Within.{within_byte, ticked_within, within_block, ticked_block};
ghost use Rattle.ticking.specs.Within.{hears_within, heard_within, hears_block, heard_block};

use channel::{Answer, Answered, Channel, cell};
use common::{in_blocks, in_sdlc};
use settings::breaks;

// A transmit tick in SDLC, with no break and inside a byte.
#[tactic(auto, using(crate::specs::Laws::Within::inside_is, crate::specs::Laws::Within::outside_is))]
pub(crate) fn within(c: Channel) -> bool
    ensures { result ≡ within_byte c }
{
    framing::within(c.sender.framer()) && (!breaks(c.registers.wr5) & in_sdlc(c.registers.mode()))
}

// The tick, if so.
#[tactic(auto, unfolding(crate::specs::Within::ticked_within), using(common::specs::Tools::tests))]
pub(crate) fn tick_within(mut c: Channel) -> Answered
    ensures { result ≡ ticked_within c }
{
    let t = framing::tick_within(c.sender.framer());
    c.sender = c.sender.with_framer(t.framer);
    Answered {
        answer: Answer::Gave(cell(t.bit)),
        channel: c,
    }
}

// A transmit tick in Monosync or Bisync, with no break and inside a byte.
#[tactic(auto, using(crate::specs::Laws::Within::inside_block, crate::specs::Laws::Within::outside_block))]
pub(crate) fn within_block(c: Channel) -> bool
    ensures { result ≡ within_block c }
{
    bytesync::within(c.sender.block) && (!breaks(c.registers.wr5) & in_blocks(c.registers.mode()))
}

// The tick, if so.
#[tactic(auto, unfolding(crate::specs::Within::ticked_block), using(common::specs::Tools::tests))]
pub(crate) fn tick_block(mut c: Channel) -> Answered
    ensures { result ≡ ticked_block c }
{
    let t = bytesync::tick_within(c.sender.block, c.sender.shared);
    c.sender = c.sender.with_block(t.unit, t.shared);
    Answered {
        answer: Answer::Gave(cell(t.bit)),
        channel: c,
    }
}

// A receive tick in SDLC, on, and inside a character.
#[tactic(auto, unfolding(crate::specs::Within::hears_within), using(common::specs::Tools::tests))]
pub(crate) fn hears_within(c: Channel, bit: bool) -> bool
    ensures { result ≡ hears_within c bit }
{
    let g = c.registers.receiving(c.lines);
    in_sdlc(g.mode) & (g.on & listening::hears_within(c.receiver.listener(), bit))
}

// The tick, if so.
pub(crate) fn hear_within(mut c: Channel, bit: bool) -> Answered
    ensures { result ≡ answered Done (heard_within c bit) }
{
    c.receiver = c
        .receiver
        .with_listener(listening::hear_within(c.receiver.listener(), bit));
    Answered {
        answer: Answer::Done,
        channel: c,
    }
}

// A receive tick in Monosync or Bisync, on, outside hunt and inside a character.
#[tactic(auto, unfolding(crate::specs::Within::hears_block), using(common::specs::Tools::tests))]
pub(crate) fn hears_block(c: Channel) -> bool
    ensures { result ≡ hears_block c }
{
    let g = c.registers.receiving(c.lines);
    in_blocks(g.mode) & (g.on & bytesync::hears_within(c.receiver.reception))
}

// The tick, if so.
pub(crate) fn hear_block(mut c: Channel, bit: bool) -> Answered
    ensures { result ≡ answered Done (heard_block c bit) }
{
    c.receiver = c
        .receiver
        .with_reception(bytesync::hear_within(c.receiver.reception, bit));
    Answered {
        answer: Answer::Done,
        channel: c,
    }
}
