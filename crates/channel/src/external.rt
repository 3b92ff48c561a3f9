// 01, Interrupts and external status: the five bits of RR0 as they now are, and the status rule that every step runs. Assumes nothing.
ghost use Rattle.std.specs.Prelude.{◌≡◌};
ghost use Rattle.channel.specs.Channel.{live_of, settled};

use crate::Channel;
use status::Live;

impl Channel {
    // The five bits as they now are.
    #[tactic(auto, unfolding(crate::specs::Channel::live_of))]
    pub fn live(self) -> Live
        ensures { result ≡ live_of self }
    {
        let g = self.registers.receiving(self.lines);
        Live {
            abort: self.receiver.broken,
            underrun: self.sender.shared.latch,
            cts: self.lines.cts,
            hunt: self.receiver.hunting(g),
            dcd: self.lines.dcd,
        }
    }

    // This channel after a step from that one: the status rule.
    #[tactic(auto, unfolding(crate::specs::Channel::settled))]
    pub fn settled(mut self, was: Channel) -> Channel
        ensures { result ≡ settled was self }
    {
        self.status = self.status.noticed(was.live(), self.live());
        self
    }
}
