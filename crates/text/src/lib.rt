// A line of text, put together byte by byte: what does not fit is left away. Assumes nothing.
#![tactic(auto)]

ghost use Rattle.std.specs.Prelude.{◌≡◌};
ghost use Rattle.text.specs.Text.{empty_line, with, with_all, decimal, numbered};

// A line has at most this many bytes: seven numbers of three digits, six spaces and a newline.
pub const LONGEST: usize = 28;

// A line: its bytes, and how many of them count. Memory is fixed, so it is no String.
#[derive(Clone, Copy)]
pub struct Line {
    pub text: [u8; LONGEST],
    pub size: usize,
}

impl Line {
    pub fn empty() -> Line
        ensures { result ≡ empty_line }
    {
        Line {
            text: [0; LONGEST],
            size: 0,
        }
    }

    // A byte more, where there is room for it.
    #[tactic(auto, unfolding(crate::specs::Text::with))]
    pub fn with(mut self, v: u8) -> Line
        ensures { result ≡ with self v }
    {
        if self.size < LONGEST {
            self.text[self.size] = v;
            self.size += 1;
        }
        self
    }

    // Bytes, each likewise.
    pub fn with_all(self, bytes: &[u8]) -> Line
        ensures { result ≡ with_all self bytes.now }
    {
        bytes.iter().fold(self, |l, v| l.with(*v))
    }

    // A number, its last digits, so many, where it has more.
    fn with_digits(self, v: usize, digits: u8) -> Line
        ensures { result ≡ with_all self (decimal digits v) }
    {
        if digits == 0 {
            return self;
        }
        let l = if v < 10 {
            self
        } else {
            self.with_digits(v / 10, digits - 1)
        };
        // one digit, of which as loses nothing
        l.with(b'0' + (v % 10) as u8)
    }

    // A number, its last five digits where it has more, and the byte behind it.
    pub fn with_number(self, v: usize, end: u8) -> Line
        ensures { result ≡ numbered self v end }
    {
        self.with_digits(v, 5).with(end)
    }
}
