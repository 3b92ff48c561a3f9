// A channel whose SDLC sender was taken out, ticked and fed on its own, and is put back. Assumes nothing.
ghost use Rattle.std.specs.Prelude.{◌≡◌};
ghost use Rattle.drive.specs.Framer.{channel_with};

use channel::Channel;
use sdlc::Framer;
use settings::transmit_on;
use status::Live;

// A channel after ticks and data writes of its SDLC sender alone, which has come to this: the status rule sees the underrun latch, and transmit
// is pending once a load has emptied the buffer.
pub(crate) fn channel_with(mut a: Channel, f: Framer) -> Channel
    ensures { result ≡ channel_with a f }
{
    let was = a.live();
    let is = Live {
        underrun: f.shared.latch,
        ..was
    };
    a.sender = a.sender.with_framer(f);
    a.status = a.status.noticed(was, is);
    a.transmit = f.shared.buffer.is_none() & transmit_on(a.registers.wr1);
    a
}
