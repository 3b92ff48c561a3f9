// The ticks of a chip's channels. Most lie inside a byte or a character, where nothing but the sender or the receiver changes: these are made in a
// form of their own. CH is the channel's number, which no tick heeds: so the back end has a tick for each channel, which one place alone calls, and
// makes it part of its caller. With one for both, `#[inline(always)]`, a receive tick took 364 instructions for 279 (bench/README.md). Assumes nothing.
#![tactic(auto)]

mod within;

ghost use Rattle.std.specs.Prelude.{◌≡◌};
ghost use Rattle.channel.specs.declared.Answer.TheVariants.{Done};
ghost use Rattle.channel.specs.Channel.{answered};
ghost use Rattle.channel.specs.Events.{transmit_tick, receive_tick, receive_in};

use crate::within::{
    hear_block, hear_within, hears_block, hears_within, tick_block, tick_within, within,
    within_block,
};
use channel::{Answer, Answered, Channel};
use common::Refusal;

// A transmit tick whatever the unit is. The channel is copied here, so that a tick inside a byte need not lay it out for this one.
fn ticked(c: Channel) -> Answered
    ensures { result ≡ transmit_tick c }
{
    let a = c;
    a.transmit_tick()
}

// A transmit tick.
#[tactic(auto, using(crate::specs::Laws::Within::within_tick, crate::specs::Laws::Within::block_tick))]
pub fn transmit<const CH: u8>(c: Channel) -> Answered
    ensures { result ≡ transmit_tick c }
{
    if within(c) {
        return tick_within(c);
    }
    if within_block(c) {
        return tick_block(c);
    }
    ticked(c)
}

// A receive tick whatever its bit does; the channel is copied here, as with sending.
fn heard<const CH: u8>(c: Channel, bit: bool) -> Answered
    ensures { result ≡ answered Done (receive_tick c bit) }
{
    let a = c;
    a.receive_tick(bit)
}

// A receive tick; a level above 1 is refused.
#[tactic(auto, using(common::specs::Tools::tests, crate::specs::Laws::Within::receive_within, crate::specs::Laws::Within::block_hear))]
pub fn receive<const CH: u8>(c: Channel, level: u8) -> Answered
    ensures { result ≡ receive_in c level }
{
    if level > 1 {
        return Answered {
            answer: Answer::Refused(Refusal::Level),
            channel: c,
        };
    }
    let bit = level == 1;
    if hears_block(c) {
        return hear_block(c, bit);
    }
    if hears_within(c, bit) {
        return hear_within(c, bit);
    }
    heard::<CH>(c, bit)
}
