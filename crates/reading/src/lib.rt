// 01, Registers: what a control read gives, and the interrupts of two channels. Any value of a channel is accepted. Assumes nothing.
#![tactic(auto)]

mod both;
mod sources;

ghost use Rattle.std.specs.Prelude.{◌≡◌};
ghost use Rattle.channel.specs.Control.{rr0, rr1_now, read_register, control_read};

pub use crate::both::{
    acknowledging, pending_in_both, rr2, service_under_a, service_under_b, special_in_both,
};
pub use crate::sources::{pending, special_waits};
use bytesync::wrong;
use channel::{Answer, Answered, Channel};
use common::{in_blocks, placed};
use interrupts::Six;
use vector::Acked;

// What an acknowledge answers, and the sources in service after it.
#[derive(Clone, Copy)]
pub struct Taking {
    pub acked: Acked,
    pub service: Six,
}

// RR0; whether any source is pending is the chip's to say.
#[tactic(auto, unfolding(channel::specs::Control::rr0))]
pub fn rr0(c: Channel, pending: bool) -> u8
    ensures { result ≡ rr0 c pending }
{
    let g = c.registers.sending(c.lines);
    let s = c.status.shown_bits(c.live());
    let d0 = placed(c.queue.waits(), 0b1);
    let d1 = placed(pending, 0b10);
    let d2 = placed(c.sender.buffer_ready(g), 0b100);
    let d3 = placed(s.dcd, 0b1000);
    let d4 = placed(s.hunt, 0b10000);
    let d5 = placed(s.cts, 0b100000);
    let d6 = placed(s.underrun, 0b1000000);
    let d7 = placed(s.abort, 0b10000000);
    d0 + d1 + d2 + d3 + d4 + d5 + d6 + d7
}

// RR1.
#[tactic(auto, unfolding(channel::specs::Control::rr1_now))]
pub fn rr1(c: Channel) -> u8
    ensures { result ≡ rr1_now c }
{
    let sent = c.sender.all_sent(c.registers.sending(c.lines));
    if in_blocks(c.registers.mode()) {
        return c.queue.rr1_told(sent, wrong(c.receiver.check));
    }
    c.queue.rr1(sent)
}

// The register that the pointer names; pending and vector are the chip's to say.
#[tactic(auto, unfolding(channel::specs::Control::read_register))]
fn read_register(c: Channel, pending: bool, vector: u8) -> u8
    ensures { result ≡ read_register c pending vector }
{
    match c.pointer {
        0 => rr0(c, pending),
        1 => rr1(c),
        2 => vector,
        _ => 0,
    }
}

// A control read.
pub fn control_read(mut c: Channel, pending: bool, vector: u8) -> Answered
    ensures { result ≡ control_read c pending vector }
{
    let v = read_register(c, pending, vector);
    c.pointer = 0;
    Answered {
        answer: Answer::Gave(v),
        channel: c,
    }
}
