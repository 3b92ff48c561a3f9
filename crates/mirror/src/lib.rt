// The SDLC check's register held mirrored, x^15 lowest: a byte then enters it at once. Assumes nothing.
#![tactic(auto)]

ghost use Rattle.std.specs.Prelude.{◌≡◌};
ghost use Rattle.mirror.specs.Mirror.{mirrored_byte};

// The mirrored register after the eight bits of a byte. The byte meets the low half as it stands. That half goes out and comes back at the
// places of x^12+x^5+1; through x^12 its low four bits reach its high four before these go out. The high half moves down.
pub fn mirrored_byte(m: u16, v: u8) -> u16
    ensures { result ≡ mirrored_byte m v }
{
    let met = m ^ u16::from(v);
    let low = met % 256;
    let folded = low ^ (low % 16 * 16);
    let back = (folded * 256) ^ (folded * 8) ^ (folded / 16);
    (met / 256) ^ back
}
