// 02, P3: a transmit tick: the first bit of each unit, the choice of the next, and the unit under way. Assumes nothing.
ghost use Rattle.std.specs.Prelude.{◌≡◌};
ghost use Rattle.bytesync.specs.Syncs.{pair};
ghost use Rattle.bytesync.specs.Sending.{sent_bit, start_sync, start_byte, start_check};
ghost use Rattle.bytesync.specs.Sending.{byte_or_sync, underrun, following, tick_block};
ghost use Rattle.bytesync.specs.Within.{unit_left, going_on};

use crate::{BlockUnit, Synced, Syncing, Syncs};
use shared::Shared;

impl Syncs {
    // The two sync characters as one number, the first bit lowest.
    pub(crate) fn pair(self) -> u16
        ensures { result ≡ pair self }
    {
        u16::from(self.first) + u16::from(self.second) * 256
    }
}

impl Synced {
    // A bit with which nothing is loaded.
    pub(crate) fn sent(bit: bool, unit: BlockUnit, shared: Shared) -> Synced
        ensures { result ≡ sent_bit bit unit shared }
    {
        Synced {
            bit,
            loaded: false,
            unit,
            shared,
        }
    }

    // The check's first bit.
    fn start_check(k: Shared) -> Synced
        ensures { result ≡ start_check k }
    {
        let v = k.check;
        Synced::sent(v / 32768 % 2 == 1, BlockUnit::Check(15, v % 32768 * 2), k)
    }
}

impl Syncing {
    // A sync's first bit.
    fn start_sync(self, k: Shared) -> Synced
        ensures { result ≡ start_sync self k }
    {
        let y = self.syncs;
        if y.both {
            let v = y.pair();
            return Synced::sent(v % 2 == 1, BlockUnit::Sync(15, v / 2), k);
        }
        let v = u16::from(y.first);
        Synced::sent(v % 2 == 1, BlockUnit::Sync(7, v / 2), k)
    }

    // The first bit of v, the byte that waited in the buffer.
    fn start_byte(self, v: u8, k: Shared) -> Synced
        ensures { result ≡ start_byte self v k }
    {
        Synced {
            bit: v % 2 == 1,
            loaded: true,
            unit: BlockUnit::Byte(7, v / 2),
            shared: k.byte_entered(v, self.polynomial, self.included).emptied(),
        }
    }

    // Behind a sync or a check.
    fn byte_or_sync(self, k: Shared) -> Synced
        ensures { result ≡ byte_or_sync self k }
    {
        match k.buffer {
            Some(v) => self.start_byte(v, k),
            None => self.start_sync(k),
        }
    }

    // Behind a byte, with none to follow.
    fn underrun(self, k: Shared) -> Synced
        ensures { result ≡ underrun self k }
    {
        if !k.latch & self.included {
            return Synced::start_check(k.latched());
        }
        self.start_sync(k.latched())
    }

    // The first bit of the unit behind u, while on.
    #[tactic(auto, unfolding(crate::specs::Sending::following))]
    fn following(self, u: BlockUnit, k: Shared) -> Synced
        ensures { result ≡ following self u k }
    {
        match u {
            BlockUnit::Mark => self.start_sync(k),
            BlockUnit::Byte(_, _) => match k.buffer {
                Some(v) => self.start_byte(v, k),
                None => self.underrun(k),
            },
            BlockUnit::Sync(_, _) | BlockUnit::Check(_, _) => self.byte_or_sync(k),
        }
    }

    // One transmit tick, u under way.
    #[tactic(auto, using(crate::specs::Laws::Within::ended, crate::specs::Laws::Within::under_way_lem))]
    pub fn tick(self, u: BlockUnit, k: Shared) -> Synced
        ensures { result ≡ tick_block self u k }
    {
        if u.left() != 0 {
            return u.going_on(k);
        }
        if self.on {
            return self.following(u, k);
        }
        Synced::sent(true, BlockUnit::Mark, k)
    }
}

impl BlockUnit {
    // The bits that are still to be sent.
    fn left(self) -> u8
        ensures { result ≡ unit_left self }
    {
        match self {
            BlockUnit::Mark => 0,
            BlockUnit::Sync(n, _) | BlockUnit::Byte(n, _) | BlockUnit::Check(n, _) => n,
        }
    }

    // The next bit of a unit that has one left.
    fn going_on(self, k: Shared) -> Synced
        ensures { result ≡ going_on self k }
    {
        match self {
            BlockUnit::Mark => Synced::sent(true, BlockUnit::Mark, k),
            BlockUnit::Sync(n, v) => {
                Synced::sent(v % 2 == 1, BlockUnit::Sync(n.saturating_sub(1), v / 2), k)
            }
            BlockUnit::Byte(n, v) => {
                Synced::sent(v % 2 == 1, BlockUnit::Byte(n.saturating_sub(1), v / 2), k)
            }
            BlockUnit::Check(n, v) => Synced::sent(
                v / 32768 % 2 == 1,
                BlockUnit::Check(n.saturating_sub(1), v % 32768 * 2),
                k,
            ),
        }
    }
}
