// 01, Receiving, SDLC: flags, aborts, the seven-bit delay, characters and their check, address search. Assumes nothing.
#![tactic(auto)]

mod within;

ghost use Rattle.std.specs.Prelude.{◌≡◌};
ghost use Rattle.sdlc.specs.Hearing.{ones_counted, shift_in, wrong, listener, unheard, dropping, with_ones, unmarked, accept, push, closing, one, zero_bit, hear_sdlc};

pub use crate::within::{hear_within, hears_within};
use entry::Entry;
use line::{ONES, SDLC, check_step};
use sdlc::{Addressing, Chars, Content, Listened, Listener};

// The least of the full delays.
const FULL: u8 = 128;

// The place of a character's last bit.
const LAST: u8 = 7;

// What a good frame leaves in the check.
const REMAINDER: u16 = 0x1D0F;

// Ones in a row before a dropped zero, before a flag's last zero, and in an abort.
const INSERTED: u8 = 5;

const FLAG: u8 = 6;

const ABORT: u8 = 7;

// The address that every station takes for its own.
const EVERYONE: u8 = 0xFF;

// Ones in a row; more than an abort's are counted as its seven.
fn ones_counted(ones: u8) -> u8
    ensures { result ≡ ones_counted ones }
{
    if ones < ABORT { ones + 1 } else { ABORT }
}

// A bit enters a character from above.
fn shift_in(b: bool, part: u8) -> u8
    ensures { result ≡ shift_in b part }
{
    part / 2 + u8::from(b) * 128
}

// The first byte v of a frame (none is held) is neither the address nor everyone's.
fn wrong(g: Addressing, held: Option<u8>, v: u8) -> bool
    ensures { result ≡ wrong g held v }
{
    g.search & (held.is_none() & ((v != g.address) & (v != EVERYONE)))
}

// A tick that hands nothing over.
fn unheard(listener: Listener) -> Listened
    ensures { result ≡ unheard listener }
{
    Listened {
        listener,
        entry: None,
    }
}

// The character held, if one is, without a mark.
fn unmarked(held: Option<u8>) -> Option<Entry>
    ensures { result ≡ unmarked held }
{
    held.map(|v| Entry::received(v, false, false, false, false))
}

// It ends the frame: with the end mark, and with a bad check or not.
fn closing(c: Chars, check: u16) -> Option<Entry>
    ensures { result ≡ closing c check }
{
    let bad = !((c.count == 0) & (check == REMAINDER));
    c.held.map(|v| Entry::received(v, false, false, true, bad))
}

// Between two flags, with these ones in a row, this delay and these characters; check and D7.
fn listener(ones: u8, delay: u8, chars: Chars, check: u16, broken: bool) -> Listener
    ensures { result ≡ listener ones delay chars check broken }
{
    Listener {
        content: Content {
            hunt: false,
            skip: false,
            ones,
            delay,
            chars,
        },
        check,
        broken,
    }
}

// The frame is dropped until a flag.
fn dropping(ones: u8, check: u16, broken: bool) -> Listener
    ensures { result ≡ dropping ones check broken }
{
    Listener {
        content: Content::at(false, true, ones),
        check,
        broken,
    }
}

// A bit b leaves the delay behind characters c; with its eighth a character is held, and the one held before is queued.
#[tactic(auto, unfolding(sdlc::specs::Hearing::accept))]
fn accept(g: Addressing, c: Chars, k: u16, ones: u8, broken: bool, delay: u8, b: bool) -> Listened
    ensures { result ≡ accept g c k ones broken delay b }
{
    let part = shift_in(b, c.part);
    let check = check_step(SDLC, k, b);
    if c.count < LAST {
        let chars = Chars {
            count: c.count + 1,
            part,
            ..c
        };
        return unheard(listener(ones, delay, chars, check, broken));
    }
    if wrong(g, c.held, part) {
        return unheard(dropping(ones, check, broken));
    }
    let chars = Chars {
        count: 0,
        part: 0,
        held: Some(part),
    };
    Listened {
        listener: listener(ones, delay, chars, check, broken),
        entry: unmarked(c.held),
    }
}

// A bit of content enters the delay; a full one gives its oldest.
#[tactic(auto, unfolding(sdlc::specs::Hearing::push))]
fn push(g: Addressing, s: Listener, ones: u8, broken: bool, b: bool) -> Listened
    ensures { result ≡ push g s ones broken b }
{
    let d = s.content.delay;
    let v = u8::from(b);
    if d < FULL {
        return unheard(listener(ones, d * 2 + v, s.content.chars, s.check, broken));
    }
    accept(
        g,
        s.content.chars,
        s.check,
        ones,
        broken,
        FULL + d % 64 * 2 + v,
        d / 64 % 2 == 1,
    )
}

// The ones in a row, and nothing else of the content, change; D7 as given.
fn with_ones(mut s: Listener, ones: u8, broken: bool) -> Listener
    ensures { result ≡ with_ones s ones broken }
{
    s.content.ones = ones;
    s.broken = broken;
    s
}

// A 1 on the line.
#[tactic(auto, unfolding(sdlc::specs::Hearing::one))]
fn one(g: Addressing, s: Listener) -> Listened
    ensures { result ≡ one g s }
{
    let n = s.content.ones;
    if s.content.hunt {
        return unheard(with_ones(s, ones_counted(n), s.broken));
    }
    if n < FLAG {
        if s.content.skip {
            return unheard(with_ones(s, n + 1, s.broken));
        }
        return push(g, s, n + 1, s.broken, true);
    }
    unheard(dropping(ABORT, s.check, true))
}

// A 0 on the line.
#[tactic(auto, unfolding(sdlc::specs::Hearing::zero_bit))]
fn zero_bit(g: Addressing, s: Listener) -> Listened
    ensures { result ≡ zero_bit g s }
{
    let n = s.content.ones;
    let deaf = s.content.hunt | s.content.skip;
    if n == FLAG {
        return Listened {
            listener: Listener {
                content: Content::at(false, false, 0),
                check: ONES,
                broken: false,
            },
            entry: if deaf {
                None
            } else {
                closing(s.content.chars, s.check)
            },
        };
    }
    if deaf {
        return unheard(with_ones(s, 0, false));
    }
    if n == INSERTED {
        return unheard(with_ones(s, 0, false));
    }
    push(g, s, 0, false, false)
}

// One receive tick while on.
#[tactic(auto, unfolding(sdlc::specs::Hearing::hear_sdlc))]
pub fn hear(s: Listener, g: Addressing, bit: bool) -> Listened
    ensures { result ≡ hear_sdlc g s bit }
{
    if bit { one(g, s) } else { zero_bit(g, s) }
}
