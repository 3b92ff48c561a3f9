// The check's table: a byte of the note enters the mirrored register by one look into it. Made here, and lent from there on. Assumes nothing.
#![tactic(auto)]

mod entries;

ghost use Rattle.std.specs.Prelude.{◌≡◌};
ghost use Rattle.table.specs.Table.{check_table};

// The mirrored register after eight steps by 0, for each byte that it holds.
pub fn checks() -> [u16; 256]
    ensures { result ≡ check_table }
{
    entries::CHECKS
}
