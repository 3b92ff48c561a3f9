// 01, Receiving, Asynchronous: a character from its start bit to its stop bit. Assumes nothing.
ghost use Rattle.std.specs.Prelude.{◌≡◌};
ghost use Rattle.asynchronous.specs.Hearing.{begun_as, bits_with, with_bit, in_silence, stopped, hear_character};

use crate::{Assembled, Assembly, Format};
use entry::Entry;
use shapes::Length;

impl Format {
    // A character starts, as set now.
    fn begun(self) -> Assembly
        ensures { result ≡ begun_as self }
    {
        Assembly {
            wait: false,
            left: Length::of(self.length).size() + u8::from(self.parity) + 1,
            bits: 0xFF,
            weight: 1,
            odd: false,
            blank: true,
            parity: self.parity,
            even: self.even,
        }
    }
}

impl Assembly {
    // The byte, when a 0 takes its place.
    #[tactic(auto, unfolding(crate::specs::Hearing::bits_with))]
    fn bits_with(self, b: bool) -> u8
        ensures { result ≡ bits_with self b }
    {
        if b {
            self.bits
        } else {
            self.bits ^ self.weight
        }
    }

    // A data or parity bit.
    fn with_bit(self, left: u8, b: bool) -> Assembly
        ensures { result ≡ with_bit self left b }
    {
        Assembly {
            left,
            bits: self.bits_with(b),
            weight: self.weight % 128 * 2,
            odd: self.odd != b,
            blank: self.blank & !b,
            ..self
        }
    }

    // A tick that hands nothing over.
    fn in_silence(self, broken: bool) -> Assembled
        ensures { result ≡ in_silence self broken }
    {
        Assembled {
            assembly: self,
            broken,
            entry: None,
        }
    }

    // The stop bit queues the character with its marks.
    fn stopped(self, broken: bool, stop: bool) -> Assembled
        ensures { result ≡ stopped self broken stop }
    {
        Assembled {
            assembly: Assembly::none(!stop),
            broken: broken | (self.blank & !stop),
            entry: Some(Entry::received(
                self.bits,
                self.parity & (self.odd == self.even),
                !stop,
                false,
                false,
            )),
        }
    }

    // One receive tick while on; broken is RR0 D7.
    #[tactic(auto, unfolding(crate::specs::Hearing::hear_character))]
    pub fn hear(self, g: Format, broken: bool, b: bool) -> Assembled
        ensures { result ≡ hear_character g self broken b }
    {
        if self.wait {
            if b {
                let released = Assembly {
                    wait: false,
                    ..self
                };
                return released.in_silence(false);
            }
            return self.in_silence(broken);
        }
        match self.left {
            0 if b => self.in_silence(broken),
            0 => g.begun().in_silence(broken),
            1 => self.stopped(broken, b),
            left => self.with_bit(left - 1, b).in_silence(broken),
        }
    }
}
