// The calls of the known answers that need no chip, each held to what its item says, and what a list must give that went through one. Assumes
// nothing.
#![tactic(auto)]

ghost use Rattle.std.specs.Prelude.{◌≡◌};
ghost use Rattle.calls.specs.Calls.{page, line_right, call_right, value_of};
ghost use Rattle.calls.specs.Listed.{between_of, list_value};

use common::{Refusal, number_in};
use flags::Between;
use items::{Item, Kind, Sheet};
use told::Total;

// What a page holds where nobody has written.
const UNTOUCHED: u8 = 9;

// Room for every line.
const PAGE: usize = 20000;

#[tactic(auto, unfolding(crate::specs::Calls::page))]
fn page() -> [u8; PAGE]
    ensures { result ≡ page }
{
    [UNTOUCHED; PAGE]
}

// A line is written into a part of the page, and the whole page is then as it must be.
fn line_right(t: Item, note: &[u8], wanted: &[u8]) -> bool
    ensures { result ≡ line_right t note.now wanted.now }
{
    let mut space = page();
    let page: &mut [u8] = &mut space;
    let room = t.room(page.len());
    let c = writer::write_line(note, &mut page[..room], t.place());
    t.is(number_in(c), c.unwrap_or(0)) & (*page == *wanted)
}

// A call gave what it must.
fn call_right(t: Item, given: &[u8], wanted: &[u8]) -> bool
    ensures { result ≡ call_right t given.now wanted.now }
{
    match t.kind {
        Kind::Zeros => {
            let c = zeros::zeros_of(given);
            t.is(number_in(c), c.unwrap_or(0))
        }
        Kind::Line => line_right(t, given, wanted),
        Kind::Scan => {
            let s = notes::scan(given);
            t.is(number_in(s), s.unwrap_or(0))
        }
        Kind::Pages => {
            let p = report::page_ticks(given);
            t.is(number_in(p), p.unwrap_or(0))
        }
        _ => false,
    }
}

// What the register holds if the item names it, or 1 if its call gave what it must.
pub fn value_of(s: Sheet, register: u8, desk: &[u8]) -> u8
    ensures { result ≡ value_of s register desk.now }
{
    match s.item.kind {
        Kind::Register => register,
        _ => u8::from(call_right(
            s.item,
            items::part(desk, 0, s.given),
            items::part(desk, s.given, s.wanted),
        )),
    }
}

// How the notes of an item's list follow each other.
pub fn between_of(t: Item) -> Between
    ensures { result ≡ between_of t }
{
    match t.kind {
        Kind::SharedList => Between::SharedFlag,
        _ => Between::usual(),
    }
}

// 1 if a list gave what its item says.
pub fn list_value(s: Sheet, l: Result<Total, Refusal>, rows: &[usize], desk: &[u8]) -> u8
    ensures { result ≡ list_value s l rows.now desk.now }
{
    let total = l.unwrap_or(Total { notes: 0, ticks: 0 });
    u8::from(
        s.item.is(number_in(l), total.ticks)
            & (total.notes == items::two_bytes(s.item.y, s.item.z))
            & items::cells_are(rows, items::part(desk, s.given, s.wanted)),
    )
}
