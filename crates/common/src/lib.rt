// What every part cites: the refusals of document 01 with their numbers, a channel's mode, and a register's bits. Assumes nothing.
#![tactic(auto)]

ghost use Rattle.std.specs.Prelude.{◌≡◌, ◌≤◌};
ghost use Rattle.common.specs.Mode.{in_sdlc, in_blocks, same_mode};
ghost use Rattle.common.specs.Bit.{placed};
ghost use Rattle.common.specs.Refusal.{number_of, number_in};

// 01, Events: the table's rows, in its order. A refused call changes nothing and gives back only this.
#[derive(Clone, Copy, PartialEq, Eq)]
pub enum Refusal {
    // 1: channel above 1
    Channel,
    // 2: a line bit, DCD or CTS above 1
    Level,
    // 3: a WR4 write that asks for what is not built
    Setting,
    // 4: acknowledge with no pending source above all those in service
    NothingWaits,
    // 5: list empty, or its first byte is not 1
    NoList,
    // 6: a note's length is 0 or above 2,048
    NoteLength,
    // 7: the list ends inside a length or a note
    CutList,
    // 8: the lent line buffer has fewer bytes from the named place on than the line
    NoRoom,
    // 9: list longer than 65,535 bytes
    LongList,
    // 10: data read with nothing waiting
    NoCharacter,
}

impl Refusal {
    // The paper's number, row by row of its table: numbers of the enum itself could not be mistaken for one another, and the edits show that a match can.
    pub fn number(self) -> u8
        ensures { result ≡ number_of self }
    {
        match self {
            Refusal::Channel => 1,
            Refusal::Level => 2,
            Refusal::Setting => 3,
            Refusal::NothingWaits => 4,
            Refusal::NoList => 5,
            Refusal::NoteLength => 6,
            Refusal::CutList => 7,
            Refusal::NoRoom => 8,
            Refusal::LongList => 9,
            Refusal::NoCharacter => 10,
        }
    }
}

// The paper's number of what was refused, 0 where nothing was; whatever the answer is.
pub fn number_in<T: Copy>(answer: Result<T, Refusal>) -> u8
    ensures { result ≡ number_in answer }
{
    match answer {
        Ok(_) => 0,
        Err(k) => k.number(),
    }
}

// 01, Registers: what the last accepted WR4 chose; a reset "leaves no mode". 02, P3: Monosync and Bisync.
#[derive(Clone, Copy, PartialEq, Eq)]
pub enum Mode {
    NoMode,
    Asynchronous,
    Monosync,
    Bisync,
    Sdlc,
}

// The mode is SDLC.
pub fn in_sdlc(mode: Mode) -> bool
    ensures { result ≡ in_sdlc mode }
{
    mode == Mode::Sdlc
}

// The mode is one of the two byte-synchronous ones.
pub fn in_blocks(mode: Mode) -> bool
    ensures { result ≡ in_blocks mode }
{
    matches!(mode, Mode::Monosync | Mode::Bisync)
}

// The two modes are one.
pub fn same_mode(m: Mode, n: Mode) -> bool
    ensures { result ≡ same_mode m n }
{
    m == n
}

// A bit of a register, by its weight.
pub fn placed(b: bool, weight: u8) -> u8
    ensures value { result ≡ placed b weight }
    ensures upper_bound { result ≤ weight }
{
    if b { weight } else { 0 }
}
