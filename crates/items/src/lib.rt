// Known answers in bytes, as scripts/assemble makes them: items, read one by one, and the sheet on which they are judged. An item makes one call
// and says what it must give, or has bytes for the next call, or ends a case. What is told, a line for each case and a last one, is put into a
// buffer that is lent. Assumes nothing.
#![tactic(auto)]

mod cells;
mod desk;
mod lines;

ghost use Rattle.std.specs.Prelude.{◌≡◌, ◌≤◌, ◌<◌};
ghost use Rattle.items.specs.Kind.{kind_of, lies, bytes_behind};
ghost use Rattle.items.specs.Item.{two_bytes, three_bytes, empty_item, item_at};
ghost use Rattle.items.specs.Item.{says, place_of, room_of, times_of};
ghost use Rattle.items.specs.Sheet.{start_sheet, counted, right_by, closed, judged, answered};
ghost use Rattle.items.specs.Sheet.{with_item, dealt_desk, dealt_sheet};
ghost use Rattle.items.specs.Lines.{told};

pub use crate::cells::cells_are;
use crate::desk::lay_times;
pub use crate::desk::{all_read, part};
pub use crate::lines::ended;
use crate::lines::tell;

// An item's kind, each with its byte.
#[derive(Clone, Copy, PartialEq, Eq)]
pub enum Kind {
    // 0 to 9: an event, by its code
    Event(u8),
    // 10
    Register,
    // 11: the case ends here: its name
    Name,
    // 12: bytes for the next call
    Given,
    // 13: bytes that it must leave
    Wanted,
    // 14 to 19: the other calls
    NoteList,
    SharedList,
    Pages,
    Zeros,
    Line,
    Scan,
    // 255: there is no more
    Stop,
    // any other: a call that nothing makes, so never right
    Unknown,
}

impl From<u8> for Kind {
    ghost from_gives = { λ v r. r ≡ kind_of v };

    fn from(v: u8) -> Kind {
        match v {
            0..=9 => Kind::Event(v),
            10 => Kind::Register,
            11 => Kind::Name,
            12 => Kind::Given,
            13 => Kind::Wanted,
            14 => Kind::NoteList,
            15 => Kind::SharedList,
            16 => Kind::Pages,
            17 => Kind::Zeros,
            18 => Kind::Line,
            19 => Kind::Scan,
            255 => Kind::Stop,
            _ => Kind::Unknown,
        }
    }
}

impl Kind {
    // Bytes for a call, or bytes that it must leave.
    fn lies(self) -> bool
        ensures { result ≡ lies self }
    {
        matches!(self, Kind::Given | Kind::Wanted)
    }

    // How many bytes stand behind an item of this kind.
    fn bytes_behind(self, x: u8) -> usize
        ensures { result ≡ bytes_behind self x }
    {
        match self {
            Kind::Name | Kind::Given | Kind::Wanted => usize::from(x),
            _ => 0,
        }
    }
}

// An item of eight bytes: its kind, three arguments, and what it must give, a refusal's number and a value of three bytes. Bytes may stand behind
// it, from a place to a place, which is the next item's.
#[derive(Clone, Copy)]
pub struct Item {
    pub kind: Kind,
    pub x: u8,
    pub y: u8,
    pub z: u8,
    pub number: u8,
    pub value: usize,
    pub start: usize,
    pub behind: usize,
}

// The bytes of an item.
const ITEM: usize = 8;

// No value is asked for.
const ANY: usize = 0xFFFFFF;

// The byte that names the greatest place there is.
const GREATEST_PLACE: u8 = 255;

// A number of two bytes.
pub fn two_bytes(high: u8, low: u8) -> usize
    ensures value { result ≡ two_bytes high low }
    ensures upper_bound { result < 65536 }
{
    usize::from(high) * 256 + usize::from(low)
}

// A number of three.
fn three_bytes(high: u8, middle: u8, low: u8) -> usize
    ensures { result ≡ three_bytes high middle low }
{
    two_bytes(high, middle) * 256 + usize::from(low)
}

impl Item {
    fn empty(kind: Kind) -> Item
        ensures { result ≡ empty_item kind }
    {
        Item {
            kind,
            x: 0,
            y: 0,
            z: 0,
            number: 0,
            value: 0,
            start: 0,
            behind: 0,
        }
    }

    // This is what it must give.
    pub fn is(self, number: u8, value: usize) -> bool
        ensures { result ≡ says self number value }
    {
        (number == self.number) & ((value == self.value) | (self.value == ANY))
    }

    // The place at which a line starts.
    pub fn place(self) -> usize
        ensures { result ≡ place_of self }
    {
        if self.z == GREATEST_PLACE {
            usize::MAX
        } else {
            usize::from(self.z)
        }
    }

    // How many cells are lent to its call, of those that there are.
    pub fn room(self, cells: usize) -> usize
        ensures value { result ≡ room_of self cells }
        ensures upper_bound { result ≤ cells }
    {
        match self.kind {
            Kind::Line => two_bytes(self.x, self.y).min(cells),
            _ if self.x == 0 => cells,
            _ => usize::from(self.x).min(cells),
        }
    }

    // How often the bytes behind it come.
    fn times(self) -> usize
        ensures { result ≡ times_of self }
    {
        if self.kind.lies() {
            two_bytes(self.y, self.z)
        } else {
            0
        }
    }
}

// The item at a place; the last where none stands.
fn item_at(bytes: &[u8], at: usize) -> Item
    ensures { result ≡ item_at bytes.now at }
{
    let left = &bytes[at.min(bytes.len())..];
    let [kind, x, y, z, number, high, middle, low, rest @ ..] = left else {
        return Item::empty(Kind::Stop);
    };
    let kind = Kind::from(*kind);
    let start = at + ITEM;
    Item {
        kind,
        x: *x,
        y: *y,
        z: *z,
        number: *number,
        value: three_bytes(*high, *middle, *low),
        start,
        behind: start + kind.bytes_behind(*x).min(rest.len()),
    }
}

// The item that was read last; the ends of the bytes for the next call and of those that it must leave, which stand behind them on the desk;
// whether the case is right so far; the cases, and those that were; the end of what has been told.
#[derive(Clone, Copy)]
pub struct Sheet {
    pub item: Item,
    pub given: usize,
    pub wanted: usize,
    pub right: bool,
    pub cases: usize,
    pub good: usize,
    pub told: usize,
}

// One more, up to five digits.
fn counted(n: usize, right: bool) -> usize
    ensures { result ≡ counted n right }
{
    if right & (n < 99999) { n + 1 } else { n }
}

// The call of an item gave what it must: the chip's answer, or a 1 where the call was judged already.
fn right_by(t: Item, number: u8, value: u8) -> bool
    ensures { result ≡ right_by t number value }
{
    match t.kind {
        Kind::Event(_) | Kind::Register => t.is(number, usize::from(value)),
        _ => value == 1,
    }
}

impl Sheet {
    // Before the first item: no bytes for a call.
    pub fn start() -> Sheet
        ensures { result ≡ start_sheet }
    {
        Sheet {
            item: Item::empty(Kind::Given),
            given: 0,
            wanted: 0,
            right: true,
            cases: 0,
            good: 0,
            told: 0,
        }
    }

    // A case ends: it is counted and told up to here, and the next is right so far.
    fn closed(self, told: usize) -> Sheet
        ensures { result ≡ closed self told }
    {
        Sheet {
            given: 0,
            wanted: 0,
            right: true,
            cases: counted(self.cases, true),
            good: counted(self.good, self.right),
            told,
            ..self
        }
    }

    // A call is judged, and has used its bytes up.
    fn judged(self, right: bool) -> Sheet
        ensures { result ≡ judged self right }
    {
        Sheet {
            given: 0,
            wanted: 0,
            right: self.right & right,
            ..self
        }
    }

    // The item has been played; bytes for a call wait for it.
    fn answered(self, number: u8, value: u8, told: usize) -> Sheet
        ensures { result ≡ answered self number value told }
    {
        match self.item.kind {
            Kind::Given | Kind::Wanted => self,
            Kind::Name => self.closed(told),
            _ => self.judged(right_by(self.item, number, value)),
        }
    }

    // The next item, its bytes laid on the desk up to here.
    fn with_item(self, t: Item, end: usize) -> Sheet
        ensures { result ≡ with_item self t end }
    {
        let given = if t.kind == Kind::Given {
            end
        } else {
            self.given
        };
        Sheet {
            item: t,
            given,
            wanted: end,
            ..self
        }
    }
}

// The next item is read; bytes for a call are laid on the desk, behind those that lie there.
fn dealt(s: Sheet, bytes: &[u8], desk: &mut [u8]) -> Sheet
    ensures value { result ≡ dealt_sheet s bytes.now desk.old }
    ensures desk_after { desk.new ≡ (dealt_desk s bytes.now desk.old).cells }
{
    let t = item_at(bytes, s.item.behind);
    let end = lay_times(desk, s.wanted, part(bytes, t.start, t.behind), t.times());
    s.with_item(t, end)
}

// An item was played and its call gave this: it is judged, a case that ends is told, and the next item is dealt.
pub fn next(s: Sheet, bytes: &[u8], desk: &mut [u8], out: &mut [u8], number: u8, value: u8) -> Sheet
    ensures value { result ≡ dealt_sheet (answered s number value (told s bytes.now out.old).end) bytes.now desk.old }
    ensures desk_after { desk.new ≡ (dealt_desk (answered s number value (told s bytes.now out.old).end) bytes.now desk.old).cells }
    ensures out_after { out.new ≡ (told s bytes.now out.old).cells }
{
    let told = tell(s, bytes, out);
    dealt(s.answered(number, value, told), bytes, desk)
}
