// 01, Sending, Receiving: data, ticks and lines. Assumes nothing.
ghost use Rattle.std.specs.Prelude.{◌≡◌};
ghost use Rattle.line.specs.Bits.{one_if};
ghost use Rattle.sender.specs.Sender.{tick};
ghost use Rattle.settings.specs.Settings.{sending_of};
ghost use Rattle.channel.specs.declared.Answer.TheVariants.{Done};
ghost use Rattle.channel.specs.Channel.{answered};
ghost use Rattle.channel.specs.Events.{data_written, data_read, after_tick, transmit_tick, queued, heard_by, receive_tick, lines_in};

use crate::{Answer, Answered, Channel};
use common::{Refusal, in_sdlc};
use entry::Entry;
use queue::Queue;
use receiver::Heard;
use sender::Ticked;
use settings::{Lines, breaks, transmit_on};

impl Channel {
    // A data write.
    pub fn data_write(mut self, v: u8) -> Channel
        ensures { result ≡ data_written self v }
    {
        self.sender = self.sender.write(v);
        self.transmit = false;
        self
    }

    // A data read: refused where nothing waits.
    #[tactic(auto, unfolding(crate::specs::Events::data_read))]
    pub fn data_read(mut self) -> Answered
        ensures { result ≡ data_read self }
    {
        if self.queue.waits() {
            let e = self.queue.oldest();
            self.queue = self.queue.take();
            self.armed = false;
            return Answered {
                answer: Answer::Gave(e.byte),
                channel: self,
            };
        }
        Answered {
            answer: Answer::Refused(Refusal::NoCharacter),
            channel: self,
        }
    }

    fn after_tick(mut self, t: Ticked) -> Channel
        ensures { result ≡ after_tick self t }
    {
        self.sender = t.sender;
        self.transmit |= t.loaded & transmit_on(self.registers.wr1);
        self
    }

    // What the sender does; SDLC's is told no more than it heeds.
    #[tactic(auto, unfolding(settings::specs::Settings::sending_of), using(sender::specs::Laws::Tick::tick_sdlc_lem, crate::specs::Laws::Still::in_sdlc_lem))]
    fn ticked(self) -> Ticked
        ensures { result ≡ tick (sending_of self.registers self.lines) self.sender }
    {
        if in_sdlc(self.registers.mode()) {
            return self.sender.tick_framed(
                self.registers.framing(self.lines),
                breaks(self.registers.wr5),
            );
        }
        self.sender.tick(self.registers.sending(self.lines))
    }

    // A transmit tick.
    #[tactic(auto, unfolding(crate::specs::Events::transmit_tick), using(crate::specs::Laws::Still::still_ticked))]
    pub fn transmit_tick(self) -> Answered
        ensures { result ≡ transmit_tick self }
    {
        let t = self.ticked();
        // the latch alone can move the status
        if t.sender.shared.latch == self.sender.shared.latch {
            return Answered {
                answer: Answer::Gave(cell(t.bit)),
                channel: self.after_tick(t),
            };
        }
        Answered {
            answer: Answer::Gave(cell(t.bit)),
            channel: self.after_tick(t).settled(self),
        }
    }

    fn heard_by(mut self, h: Heard) -> Channel
        ensures { result ≡ heard_by self h }
    {
        self.receiver = h.receiver;
        self.queue = queued(self.queue, h.entry);
        self
    }

    // A receive tick.
    #[tactic(auto, unfolding(crate::specs::Events::receive_tick), using(crate::specs::Laws::Still::still_heard))]
    pub fn receive_tick(self, bit: bool) -> Answered
        ensures { result ≡ answered Done (receive_tick self bit) }
    {
        let h = self
            .receiver
            .hear(self.registers.receiving(self.lines), bit);
        // hunt and D7 alone can move the status
        if h.receiver.shows_as(self.receiver) {
            return Answered {
                answer: Answer::Done,
                channel: self.heard_by(h),
            };
        }
        Answered {
            answer: Answer::Done,
            channel: self.heard_by(h).settled(self),
        }
    }

    // DCD and CTS take their values; refused where one is no level.
    #[tactic(auto, unfolding(crate::specs::Events::lines_set))]
    pub fn set_lines(mut self, dcd: u8, cts: u8) -> Answered
        ensures { result ≡ lines_in self dcd cts }
    {
        if dcd > 1 || cts > 1 {
            return Answered {
                answer: Answer::Refused(Refusal::Level),
                channel: self,
            };
        }
        let l = Lines {
            dcd: dcd == 1,
            cts: cts == 1,
        };
        let was = self;
        self.lines = l;
        Answered {
            answer: Answer::Done,
            channel: self.settled(was),
        }
    }
}

// What the receiver hands over is queued.
fn queued(q: Queue, entry: Option<Entry>) -> Queue
    ensures { result ≡ queued q entry }
{
    match entry {
        Some(e) => q.push(e),
        None => q,
    }
}

// A line bit as a number.
pub fn cell(b: bool) -> u8
    ensures { result ≡ one_if b }
{
    u8::from(b)
}
