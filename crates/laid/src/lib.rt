// A note's frame laid out in a lent buffer, from its start, a byte at a time, by tables that are lent, whatever they hold. Assumes nothing.
#![tactic(auto)]

ghost use Rattle.std.specs.Prelude.{◌≡◌};
ghost use Rattle.laid.specs.Laid.{end_stamped, frame_stamped};

use pen::put_flag;
use stamp::Tables;
use tabled::put_content;

// The frame, flags included; gives the place of the flag that closes it. layout lays it bit by bit: there are two engines, and this one is proved
// to be that one.
pub fn lay_frame(out: &mut [u8], note: &[u8], tables: &Tables) -> usize
    ensures value { result ≡ end_stamped tables.now.checks tables.now.stamps tables.now.fours out.old note.now }
    ensures out_after { out.new ≡ frame_stamped tables.now.checks tables.now.stamps tables.now.fours out.old note.now }
{
    put_flag(out, 0);
    let end = put_content(out, note, tables);
    put_flag(out, end);
    end
}
