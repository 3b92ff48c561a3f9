// The chip: two channels, their interrupts, and the calls of document 01 with refusals 1 to 4 and 10. Any value of a chip is accepted. Assumes nothing.
#![tactic(auto)]

ghost use Rattle.std.specs.Prelude.{◌≡◌};
ghost use Rattle.common.specs.declared.Refusal.TheVariants.{Channel as NoChannel};
ghost use Rattle.chip.specs.Interrupts.{acknowledge, reti};
ghost use Rattle.chip.specs.Chip.{put, refused, hard_reset, control_write_a, control_write_b, control_write};
ghost use Rattle.chip.specs.Chip.{control_read_call, data_write_call};
ghost use Rattle.chip.specs.Chip.{data_read_call, transmit_call, receive_call, lines_call};

use channel::{Answer, Answered, Channel, Side};
use common::Refusal;
use control::control_write;
use interrupts::Six;
use reading::{
    acknowledging, control_read, pending_in_both, rr2, service_under_a, service_under_b,
};
use settings::Lines;
use ticking::{receive, transmit};
use vector::Acked;

#[derive(Clone, Copy)]
pub struct Chip {
    pub a: Channel,
    pub b: Channel,
    // the sources in service
    pub service: Six,
}

// What a call answers, and the chip after it.
#[derive(Clone, Copy)]
pub struct Outcome {
    pub answer: Answer,
    pub chip: Chip,
}

// What an acknowledge answers, and the chip after it; this stands first, so that its first part is moved with no place between.
#[derive(Clone, Copy)]
pub struct Acknowledged {
    pub chip: Chip,
    pub acked: Acked,
}

// Each call by its channel, a number, since document 01 refuses one above 1. Its arms return, one by one: with the match as the value a tick takes
// some 25 instructions more (bench/README.md).
impl Chip {
    // A hard reset.
    pub fn reset() -> Chip
        ensures { result ≡ hard_reset }
    {
        let c = Channel::reset(Lines {
            dcd: false,
            cts: false,
        });
        Chip {
            a: c,
            b: c,
            service: Six::none(),
        }
    }

    // A's answer, with B as it was, or B's, with A.
    fn put(mut self, ch: u8, x: Answered) -> Outcome
        ensures { result ≡ put self ch x }
    {
        if ch == 0 {
            self.a = x.channel;
        } else {
            self.b = x.channel;
        }
        Outcome {
            answer: x.answer,
            chip: self,
        }
    }

    // There is no such channel.
    fn no_channel(self) -> Outcome
        ensures { result ≡ refused self NoChannel }
    {
        Outcome {
            answer: Answer::Refused(Refusal::Channel),
            chip: self,
        }
    }

    // A's control write, and B's. Written out in their call they take 672 bytes of stack there for 480.
    #[tactic(auto, unfolding(crate::specs::Chip::control_write_a))]
    fn write_a(mut self, v: u8) -> Outcome
        ensures { result ≡ control_write_a self v }
    {
        self.service = service_under_a(self.a, self.service, v);
        self.put(0, control_write(self.a, Side::A, v))
    }

    #[tactic(auto, unfolding(crate::specs::Chip::control_write_b))]
    fn write_b(mut self, v: u8) -> Outcome
        ensures { result ≡ control_write_b self v }
    {
        self.service = service_under_b(self.b, self.service, v);
        self.put(1, control_write(self.b, Side::B, v))
    }

    // Control write.
    #[tactic(auto, unfolding(crate::specs::Chip::control_write), using(common::specs::Tools::tests))]
    pub fn control_write(self, ch: u8, v: u8) -> Outcome
        ensures { result ≡ control_write self ch v }
    {
        match ch {
            0 => return self.write_a(v),
            1 => return self.write_b(v),
            _ => return self.no_channel(),
        }
    }

    // Control read.
    #[tactic(auto, unfolding(crate::specs::Chip::control_read_call, crate::specs::Interrupts::any_pending, crate::specs::Interrupts::rr2, crate::specs::Interrupts::pending_of), using(common::specs::Tools::tests))]
    pub fn control_read(self, ch: u8) -> Outcome
        ensures { result ≡ control_read_call self ch }
    {
        match ch {
            0 => return self.put(
                ch,
                control_read(self.a, pending_in_both(self.a, self.b).any(), 0),
            ),
            1 => return self.put(ch, control_read(self.b, false, rr2(self.a, self.b))),
            _ => return self.no_channel(),
        }
    }

    // Data write.
    #[tactic(auto, unfolding(crate::specs::Chip::data_write_call), using(common::specs::Tools::tests))]
    pub fn data_write(mut self, ch: u8, v: u8) -> Outcome
        ensures { result ≡ data_write_call self ch v }
    {
        match ch {
            0 => self.a = self.a.data_write(v),
            1 => self.b = self.b.data_write(v),
            _ => return self.no_channel(),
        }
        Outcome {
            answer: Answer::Done,
            chip: self,
        }
    }

    // Data read.
    #[tactic(auto, unfolding(crate::specs::Chip::data_read_call), using(common::specs::Tools::tests))]
    pub fn data_read(self, ch: u8) -> Outcome
        ensures { result ≡ data_read_call self ch }
    {
        match ch {
            0 => return self.put(ch, self.a.data_read()),
            1 => return self.put(ch, self.b.data_read()),
            _ => return self.no_channel(),
        }
    }

    // Transmit tick.
    #[tactic(auto, unfolding(crate::specs::Chip::transmit_call), using(common::specs::Tools::tests))]
    pub fn transmit(self, ch: u8) -> Outcome
        ensures { result ≡ transmit_call self ch }
    {
        match ch {
            0 => return self.put(ch, transmit::<0>(self.a)),
            1 => return self.put(ch, transmit::<1>(self.b)),
            _ => return self.no_channel(),
        }
    }

    // Receive tick.
    #[tactic(auto, unfolding(crate::specs::Chip::receive_call), using(common::specs::Tools::tests))]
    pub fn receive(self, ch: u8, bit: u8) -> Outcome
        ensures { result ≡ receive_call self ch bit }
    {
        match ch {
            0 => return self.put(ch, receive::<0>(self.a, bit)),
            1 => return self.put(ch, receive::<1>(self.b, bit)),
            _ => return self.no_channel(),
        }
    }

    // Set DCD and CTS.
    #[tactic(auto, unfolding(crate::specs::Chip::lines_call), using(common::specs::Tools::tests))]
    pub fn set_lines(self, ch: u8, dcd: u8, cts: u8) -> Outcome
        ensures { result ≡ lines_call self ch dcd cts }
    {
        match ch {
            0 => return self.put(ch, self.a.set_lines(dcd, cts)),
            1 => return self.put(ch, self.b.set_lines(dcd, cts)),
            _ => return self.no_channel(),
        }
    }

    // Acknowledge.
    #[tactic(auto, unfolding(crate::specs::Interrupts::acknowledge, crate::specs::Interrupts::pending_of, crate::specs::Interrupts::rr2))]
    pub fn acknowledge(mut self) -> Acknowledged
        ensures { result ≡ acknowledge self }
    {
        let t = acknowledging(self.a, self.b, self.service);
        self.service = t.service;
        Acknowledged {
            chip: self,
            acked: t.acked,
        }
    }

    // RETI.
    #[tactic(auto, unfolding(crate::specs::Interrupts::reti))]
    pub fn reti(mut self) -> Chip
        ensures { result ≡ reti self }
    {
        self.service = self.service.reti();
        self
    }
}
