// A station makes channel A of a chip ready for a note: nothing of a frame is under way, and one can be sent. Any chip is accepted, whatever its
// channel A was doing. Assumes nothing.
ghost use Rattle.std.specs.Prelude.{◌≡◌};
ghost use Rattle.drive.specs.Drive.{can_send, between_frames, stands_still, set_up, freed, prepared};

use crate::calling::{CHANNEL_RESET, SDLC_MODE, SEND_ABORT, SEND_CHECKED, control, look};
use chip::Chip;
use common::in_sdlc;
use sdlc::LineUnit;
use sender::{Sender, Sending};

// The sender can send a frame.
#[tactic(auto, unfolding(drive::specs::Drive::can_send))]
fn can_send(g: Sending) -> bool
    ensures { result ≡ can_send g }
{
    (in_sdlc(g.mode) & g.framing.on) & (g.framing.included & !g.broken)
}

// Nothing of a frame is under way.
fn between_frames(u: LineUnit) -> bool
    ensures { result ≡ between_frames u }
{
    matches!(u, LineUnit::Mark | LineUnit::Flag(_) | LineUnit::Abort(_))
}

#[tactic(auto, unfolding(drive::specs::Drive::stands_still))]
fn stands_still(s: Sender) -> bool
    ensures { result ≡ stands_still s }
{
    between_frames(s.unit) & ((s.insertion.run == 0) & !s.insertion.owed)
}

// Channel Reset; then SDLC, eight bits, on, check included.
#[tactic(auto, unfolding(drive::specs::Drive::set_up))]
fn set_up(mut c: Chip) -> Chip
    ensures { result ≡ set_up c }
{
    c = control(c, CHANNEL_RESET);
    c = control(c, 4);
    c = control(c, SDLC_MODE);
    c = control(c, 5);
    control(c, SEND_CHECKED)
}

// A channel that can send stays as it is set, and a frame that is under way in it is aborted; any other is set up.
#[tactic(auto, unfolding(drive::specs::Drive::freed))]
fn freed(c: Chip, g: Sending, s: Sender) -> Chip
    ensures { result ≡ freed c g s }
{
    let able = can_send(g);
    if able & stands_still(s) {
        return c;
    }
    if able & !s.unit.aborting() {
        return control(c, SEND_ABORT);
    }
    set_up(c)
}

// Nothing is under way, the next control write goes to WR0, and a frame can be sent.
#[tactic(auto, unfolding(drive::specs::Drive::prepared))]
pub(crate) fn prepared(mut c: Chip) -> Chip
    ensures { result ≡ prepared c }
{
    c = look(c);
    let g = c.a.registers.sending(c.a.lines);
    freed(c, g, c.a.sender)
}
