// A line of text, byte by byte. A full line takes no further byte.
ghost use Rattle.std.specs.Prelude.{◌≡◌, ◌<◌, [], ◌∷◌};
ghost use Rattle.text.specs.Line.{empty_line, Adds};
ghost use Rattle.text.specs.Text.{decimal, hex_digit, hex};
ghost use Rattle.text.specs.Names.{name_at};

// Bytes and their count, and no vector of fixed room: a line may be copied, and one of any count can be put.
#[derive(Clone, Copy)]
pub struct Line {
    pub bytes: [u8; 80],
    pub len: usize,
}

pub fn empty_line() -> Line
    ensures { result ≡ empty_line }
{
    Line {
        bytes: [0; 80],
        len: 0,
    }
}

impl Line {
    // One byte more.
    pub fn byte(mut self, b: u8) -> Line
        ensures { Adds self (b ∷ []) result }
    {
        if self.len < 80 {
            self.bytes[self.len] = b;
            self.len += 1;
        }
        self
    }

    // The bytes of a slice.
    pub fn text(self, s: &[u8]) -> Line
        ensures { Adds self s.now result }
    {
        let mut line = self;
        for b in s {
            line = line.byte(*b);
        }
        line
    }

    // The name of a number in a table, from 0; past the last, none.
    pub fn name_in(self, names: &[&str], n: u64) -> Line
        ensures { Adds self (name_at names.now n) result }
    {
        match names.get(n as usize) {
            Some(name) => self.text(name.as_bytes()),
            None => self,
        }
    }

    // A number in decimal. Its digits are found from the last; a u64 has at most 20.
    pub fn decimal(self, n: u64) -> Line
        ensures { Adds self (decimal n) result }
    {
        let mut digits = [0u8; 20];
        let mut at: usize = 19;
        let mut rest = n;
        while at > 0 && rest >= 10 {
            digits[at] = (48 + rest % 10) as u8;
            at -= 1;
            rest = rest / 10;
        }
        digits[at] = (48 + rest % 10) as u8;
        self.text(&digits[at..])
    }

    // The 16 hexadecimal digits of a word.
    pub fn hex(self, word: u64) -> Line
        ensures { Adds self (hex word) result }
    {
        let mut line = self;
        for k in (0..16u32).rev() {
            line = line.byte(hex_digit(((word >> (4 * k)) % 16) as u8));
        }
        line
    }
}

// A hexadecimal digit.
fn hex_digit(d: u8) -> u8
    requires { d < 16 }
    ensures { result ≡ hex_digit d }
{
    match d {
        0..10 => b'0' + d,
        _ => b'a' + (d - 10),
    }
}
