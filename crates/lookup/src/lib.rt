// A byte enters the mirrored check register by a look into a table that is lent, whatever it holds. Assumes nothing.
#![tactic(auto)]

ghost use Rattle.std.specs.Prelude.{◌≡◌};
ghost use Rattle.lookup.specs.Lookup.{looked_up};

// The register after a byte: it meets the low half as it stands, the high half moves down, and the table says what comes back of the low one.
// It is held in a whole word, so that nothing has to be cut to sixteen bits between one look and the next.
pub fn looked_up(checks: &[u16; 256], m: usize, v: u8) -> usize
    ensures { result ≡ looked_up checks.now m v }
{
    let met = m ^ usize::from(v);
    let low = met % 256;
    (met / 256) ^ usize::from(checks[low])
}
