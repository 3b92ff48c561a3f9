// 01, Sending, Asynchronous: start 0, the low bits, parity, stop ones. Assumes nothing.
ghost use Rattle.std.specs.Prelude.{◌≡◌, ◌+◌, ◌*◌, ◌%◌, ◌^◌, ◌≤◌, length};
ghost use Rattle.line.specs.Bits.{from_low};
ghost use Rattle.asynchronous.specs.Sending.{stops_named, stop_bits, character_of, idling, tick_character};

use crate::{Character, Stops, Typed, Typing};
use shapes::Length;
use shared::Shared;

impl Stops {
    // The stop bits of this number; any number but two counts as one.
    #[tactic(auto, unfolding(crate::specs::Sending::stops_named))]
    pub fn of(n: u8) -> Stops
        ensures { result ≡ stops_named n }
    {
        if n == 2 { Stops::Two } else { Stops::One }
    }

    // How many they are.
    #[tactic(auto, unfolding(crate::specs::Sending::stop_bits))]
    pub fn count(self) -> u8
        ensures value { result ≡ length (stop_bits self) }
        ensures upper_bound { result ≤ 2 }
    {
        self as u8
    }

    // The stop bits themselves, as a number.
    #[tactic(auto, unfolding(crate::specs::Sending::stop_bits, line::specs::Bits::from_low))]
    fn ones(self) -> u8
        ensures value { result ≡ from_low (stop_bits self) }
        ensures upper_bound { result ≤ 3 }
    {
        match self {
            Stops::One => 0b1,
            Stops::Two => 0b11,
        }
    }
}

// The bits of t above the low n bits of v.
fn above(n: u8, v: u8, t: u8) -> u16
    requires { n ≤ 8 }
    ensures { result ≡ t * 2 ^ n + v % 2 ^ n }
{
    let weight = 1u16 << n;
    u16::from(t) * weight + u16::from(v) % weight
}

impl Typing {
    // The low bits of v, parity and stop ones, to be sent.
    #[tactic(auto, using(crate::proofs::Laws::with_parity_lem, crate::proofs::Laws::without_parity))]
    fn character(self, v: u8) -> Character
        ensures { result ≡ character_of self v }
    {
        let length = Length::of(self.format.length);
        let stops = Stops::of(self.stops);
        let n = length.bits_sent(v);
        let count = stops.count();
        let ones = stops.ones();
        if self.format.parity {
            let p = u8::from(length.parity_bit(self.format.even, v));
            return Character {
                left: n + 1 + count,
                bits: above(n, v, ones * 2 + p),
            };
        }
        Character {
            left: n + count,
            bits: above(n, v, ones),
        }
    }

    // No character is under way: the start bit of the one in the buffer, if it may be loaded.
    fn idling(self, c: Character, k: Shared) -> Typed
        ensures { result ≡ idling self c k }
    {
        if self.on {
            if let Some(v) = k.buffer {
                return Typed {
                    bit: false,
                    loaded: true,
                    character: self.character(v),
                    shared: k.emptied(),
                };
            }
        }
        Typed {
            bit: true,
            loaded: false,
            character: c,
            shared: k,
        }
    }

    // One transmit tick.
    #[tactic(auto, unfolding(crate::specs::Sending::tick_character))]
    pub fn tick(self, c: Character, k: Shared) -> Typed
        ensures { result ≡ tick_character self c k }
    {
        if c.left == 0 {
            return self.idling(c, k);
        }
        Typed {
            bit: c.bits % 2 == 1,
            loaded: false,
            character: Character {
                left: c.left - 1,
                bits: c.bits / 2,
            },
            shared: k,
        }
    }
}
