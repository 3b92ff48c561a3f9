// 01, Sending, Asynchronous, with 02, P1: what a character of a length sends of a byte, and its parity. Assumes nothing.
#![tactic(auto)]

ghost use Rattle.std.specs.Prelude.{◌≡◌, ◌≤◌};
ghost use Rattle.shapes.specs.Shapes.{shape_bits};
ghost use Rattle.shapes.specs.Sent.{length_named, size, bits_sent, parity_of};

// A character's length: five data bits, as WR3 and WR5 have them for 00, to eight.
#[derive(Clone, Copy, PartialEq, Eq)]
pub enum Length {
    Five = 5,
    Six = 6,
    Seven = 7,
    Eight = 8,
}

impl Length {
    // The length of so many data bits; a number that is none of five, six and seven counts as eight.
    #[tactic(auto, unfolding(crate::specs::Sent::length_named))]
    pub fn of(bits: u8) -> Length
        ensures { result ≡ length_named bits }
    {
        match bits {
            5 => Length::Five,
            6 => Length::Six,
            7 => Length::Seven,
            _ => Length::Eight,
        }
    }

    // How many data bits that is.
    pub fn size(self) -> u8
        ensures value { result ≡ size self }
        ensures upper_bound { result ≤ 8 }
    {
        self as u8
    }

    // How many bits of this byte a character of this length sends.
    #[tactic(auto, unfolding(crate::specs::Sent::bits_sent))]
    pub fn bits_sent(self, v: u8) -> u8
        ensures value { result ≡ bits_sent self v }
        ensures upper_bound { result ≤ 8 }
    {
        match self {
            Length::Five => shape_bits(v),
            _ => self.size(),
        }
    }

    // The parity bit of the bits that are sent.
    #[tactic(auto, using(line::specs::Laws::Bits::low_step, line::specs::Laws::Bits::low_none), unfolding(crate::specs::Sent::odd_over))]
    pub fn parity_bit(self, even: bool, v: u8) -> bool
        ensures { result ≡ parity_of even self v }
    {
        let mut odd = !even;
        let mut rest = v;
        for _ in 0..self.bits_sent(v) {
            odd = odd != (rest % 2 == 1);
            rest /= 2;
        }
        odd
    }
}

// How many of a byte's low bits are sent at length 00: its Ds, where it has a shape. 000DDDDD sends five, and so does a byte of no shape.
#[tactic(auto, unfolding(crate::specs::Shapes::shape_bits))]
fn shape_bits(v: u8) -> u8
    ensures value { result ≡ shape_bits v }
    ensures upper_bound { result ≤ 5 }
{
    match v {
        // 1111000D
        0b1111_0000..=0b1111_0001 => 1,
        // 111000DD
        0b1110_0000..=0b1110_0011 => 2,
        // 11000DDD
        0b1100_0000..=0b1100_0111 => 3,
        // 1000DDDD
        0b1000_0000..=0b1000_1111 => 4,
        _ => 5,
    }
}

// How many bits of this byte a character of so many data bits sends, whatever their number.
pub fn bits_sent(length: u8, v: u8) -> u8
    ensures value { result ≡ bits_sent (length_named length) v }
    ensures upper_bound { result ≤ 8 }
{
    Length::of(length).bits_sent(v)
}

// The parity bit of these bits.
pub fn parity_bit(even: bool, length: u8, v: u8) -> bool
    ensures { result ≡ parity_of even (length_named length) v }
{
    Length::of(length).parity_bit(even, v)
}
