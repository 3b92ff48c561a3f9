// 01, Interrupts: which sources of a channel are pending. Assumes nothing.
ghost use Rattle.std.specs.Prelude.{◌≡◌};
ghost use Rattle.channel.specs.Events.{special_waits, receive_pending, pending_in};

use channel::Channel;
use interrupts::Sources;
use settings::{ReceiveMode, external_on, receive_mode};

// The oldest entry is special, as the receive interrupt mode has it.
#[tactic(auto, unfolding(channel::specs::Events::special_waits))]
pub fn special_waits(c: Channel) -> bool
    ensures { result ≡ special_waits c }
{
    c.queue.special(receive_mode(c.registers.wr1) == ReceiveMode::AllParitySpecial)
}

#[tactic(auto, unfolding(channel::specs::Events::receive_pending))]
fn receive_pending(c: Channel) -> bool
    ensures { result ≡ receive_pending c }
{
    let waits = c.queue.waits();
    match receive_mode(c.registers.wr1) {
        ReceiveMode::Off => false,
        ReceiveMode::First => (waits && c.armed) || special_waits(c),
        ReceiveMode::AllParitySpecial | ReceiveMode::All => waits || special_waits(c),
    }
}

// The sources that are pending.
#[tactic(auto, unfolding(channel::specs::Events::pending_in))]
pub fn pending(c: Channel) -> Sources
    ensures { result ≡ pending_in c }
{
    Sources {
        receive: receive_pending(c),
        transmit: c.transmit,
        external: c.status.latched.is_some() && external_on(c.registers.wr1),
    }
}
