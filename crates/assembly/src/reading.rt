// A text read back: its pieces, its words, its lines.
ghost use Rattle.std.specs.Prelude.{◌≡◌, ◌+◌, ◌%◌, drop, get_or, [], ◌∷◌, map};
ghost use Rattle.assembly.specs.Assembled.{pieces, words_of, number_from, register_words, class_words, index_words, mode_words};
ghost use Rattle.assembly.specs.Assembled.{heads, nothing, line_of, digit, pair, are_digits, bits_of, word_bytes};
ghost use Rattle.assembly.specs.Reading.{before, blankness, run, read_of, sort_of, words_put, head_put};
ghost use Rattle.assembly.specs.Making.{as_line, told};
ghost use Rattle.text.specs.Line.{empty_line, add_all};
ghost use Rattle.mir.specs.Read.{got, refused, and_then};

use mir::fields::byte;
use text::line::{Line, empty_line};

// Where the piece that begins at a position ends: at the first byte c, or at the text's end.
pub fn piece_end(s: &[u8], at: usize, c: u8) -> usize
    ensures { result ≡ at + before c (drop at s.now) }
{
    for i in at..s.len() {
        if s[i] == c {
            return i;
        }
    }
    if at < s.len() { s.len() } else { at }
}

// 1 for a blank, 0 for another byte.
fn blankness_of(b: u8) -> u8
    ensures { result ≡ blankness b }
{
    if b == b' ' {
        return 1;
    }
    if b == b'\t' {
        return 1;
    }
    if b == b'\r' { 1 } else { 0 }
}

// Where the blanks that begin at a position end, by 1, or where the word ends, by 0.
pub(crate) fn run_end(s: &[u8], at: usize, k: u8) -> usize
    ensures { result ≡ at + run k (drop at s.now) }
{
    for i in at..s.len() {
        if blankness_of(s[i]) != k {
            return i;
        }
    }
    if at < s.len() { s.len() } else { at }
}

// The number of a word among the words of a text between single spaces.
pub fn number_in(row: &[u8], w: &[u8]) -> Option<usize>
    ensures { read_of result ≡ number_from 0 (pieces 32 row.now) w.now }
{
    // By position: a turn passes over a word, whose length differs.
    let mut at: usize = 0;
    let mut n: usize = 0;
    while at < row.len() {
        let end = piece_end(row, at, b' ');
        if &row[at..end] == w {
            return Some(n);
        }
        if row.len() <= end {
            return None;
        }
        at = end + 1;
        n += 1;
    }
    None
}

// A register.
pub fn register_number(w: &[u8]) -> Option<usize>
    ensures { read_of result ≡ number_from 0 register_words w.now }
{
    number_in(
        b"G0 G1 G2 G3 G4 G5 G6 G7 G8 G9 G10 G11 G12 G13 G14 G15 G16 G17 G18 G19 G20 G21 G22 G23 G24 G25 G26 G27 G28 G29 Ret Temp",
        w,
    )
}

// A class of places.
pub fn class_number(w: &[u8]) -> Option<usize>
    ensures { read_of result ≡ number_from 0 class_words w.now }
{
    number_in(b"Stack Mem Param", w)
}

// An index: 0 to 255, as it is printed.
pub fn index_number(w: &[u8]) -> Option<usize>
    ensures { read_of result ≡ number_from 0 index_words w.now }
{
    number_in(
        b"0 1 2 3 4 5 6 7 8 9 10 11 12 13 14 15 16 17 18 19 20 21 22 23 24 25 26 27 28 29 30 31 32 33 34 35 36 37 38 39 40 41 \
            42 43 44 45 46 47 48 49 50 51 52 53 54 55 56 57 58 59 60 61 62 63 64 65 66 67 68 69 70 71 72 73 74 75 76 77 78 79 80 \
            81 82 83 84 85 86 87 88 89 90 91 92 93 94 95 96 97 98 99 100 101 102 103 104 105 106 107 108 109 110 111 112 113 114 \
            115 116 117 118 119 120 121 122 123 124 125 126 127 128 129 130 131 132 133 134 135 136 137 138 139 140 141 142 143 \
            144 145 146 147 148 149 150 151 152 153 154 155 156 157 158 159 160 161 162 163 164 165 166 167 168 169 170 171 172 \
            173 174 175 176 177 178 179 180 181 182 183 184 185 186 187 188 189 190 191 192 193 194 195 196 197 198 199 200 201 \
            202 203 204 205 206 207 208 209 210 211 212 213 214 215 216 217 218 219 220 221 222 223 224 225 226 227 228 229 230 \
            231 232 233 234 235 236 237 238 239 240 241 242 243 244 245 246 247 248 249 250 251 252 253 254 255",
        w,
    )
}

// A mode.
pub fn mode_number(w: &[u8]) -> Option<usize>
    ensures { read_of result ≡ number_from 0 mode_words w.now }
{
    number_in(b"plain stable minding", w)
}

// A line's first word.
pub fn head_number(w: &[u8]) -> Option<usize>
    ensures { read_of result ≡ number_from 0 (map (λ h. h.word) heads) w.now }
{
    number_in(
        b"mode real constant Nop Neg Not Abs Root RealRoot Recip Round Floor Ceiling Trunc Real Imaginary Conjugate Half IsZero \
            IsNotZero Sign Abs2 TimesI TimesNegI Plus Minus Times Divide GreaterThan GreaterThanEqual LittleThan LittleThanEqual \
            Equal NotEqual And AndNot Or Xor Complex Mov Load Save LoadConst MulAdd MulSub NegMulAdd NegMulSub IfElse PlusLoad \
            MinusLoad TimesLoad DivideLoad PlusConst MinusConst TimesConst DivideConst Label Branch BranchIf",
        w,
    )
}

// A hexadecimal digit's number; 16 for another byte.
fn hex_digit(b: u8) -> u8
    ensures { result ≡ digit b }
{
    if b < 48 {
        return 16;
    }
    if b <= 57 {
        return b - 48;
    }
    if b < 97 {
        return 16;
    }
    if b <= 102 { b - 87 } else { 16 }
}

// The byte of two digits.
fn two_digits(w: &[u8], i: u8) -> u8
    ensures { result ≡ pair w.now i % 256 }
{
    let at = i as usize;
    let high = hex_digit(byte(w, at));
    let low = hex_digit(byte(w, at + 1));
    ((16 * (high as u16) + low as u16) % 256) as u8
}

// Whether each byte is a digit.
fn are_digits(w: &[u8]) -> bool
    ensures { result ≡ are_digits w.now }
{
    for b in w {
        if 16 <= hex_digit(*b) {
            return false;
        }
    }
    true
}

// A line's bytes with those of one word more, here the eight bytes of a constant; none where it is no such word.
pub fn put_bits(line: Line, w: &[u8]) -> Option<Line>
    ensures { read_of result ≡ and_then (bits_of w.now) (λ b. got (add_all line b)) }
{
    if w.len() == 16 && are_digits(w) {
        return Some(line.text(&[
            two_digits(w, 14),
            two_digits(w, 12),
            two_digits(w, 10),
            two_digits(w, 8),
            two_digits(w, 6),
            two_digits(w, 4),
            two_digits(w, 2),
            two_digits(w, 0),
        ]));
    }
    None
}

// A number's byte.
fn put_number(line: Line, n: Option<usize>) -> Option<Line>
    ensures { read_of result ≡ and_then (read_of n) (λ n. got (add_all line (n % 256 ∷ []))) }
{
    let n = n?;
    Some(line.byte((n % 256) as u8))
}

// An index's two bytes.
fn put_index(line: Line, n: Option<usize>) -> Option<Line>
    ensures { read_of result ≡ and_then (read_of n) (λ n. got (add_all line (n % 256 ∷ 0 ∷ []))) }
{
    let n = n?;
    Some(line.byte((n % 256) as u8).byte(0))
}

// The bytes of a word of a sort, by the sort's letter.
pub fn put_word(line: Line, sort: u8, w: &[u8]) -> Option<Line>
    ensures { read_of result ≡ and_then (word_bytes (sort_of sort) w.now) (λ b. got (add_all line b)) }
{
    if sort == b'r' {
        return put_number(line, register_number(w));
    }
    if sort == b'c' {
        return put_number(line, class_number(w));
    }
    if sort == b'i' {
        return put_index(line, index_number(w));
    }
    if sort == b'n' {
        return put_number(line, index_number(w));
    }
    if sort == b'm' {
        return put_number(line, mode_number(w));
    }
    put_bits(line, w)
}

// Behind the byte at which a piece ends.
pub(crate) fn behind(s: &[u8], end: usize) -> usize
    ensures { drop result s.now ≡ drop (end + 1) s.now }
{
    if end < s.len() { end + 1 } else { end }
}

// The bytes of a line's words from a position on, by their sorts; there is no word more, and no word fewer.
pub fn put_words(start: Line, sorts: &[u8], l: &[u8], from: usize) -> Option<Line>
    ensures { read_of result ≡ words_put (map sort_of sorts.now) start (words_of (drop from l.now)) }
{
    let mut line = start;
    let mut at = from;
    for sort in sorts {
        let word = run_end(l, at, 1);
        if l.len() <= word {
            return None;
        }
        let end = run_end(l, word, 0);
        line = put_word(line, *sort, &l[word..end])?;
        at = end;
    }
    if run_end(l, at, 1) < l.len() {
        return None;
    }
    Some(line)
}

// By the number of a first word: how many bytes stand before its fields, five places for them, how many words follow, five places for
// the letters of their sorts.
const START_LENGTHS: [u8; 59] = *b"\
    \x04\x00\x04\x04\x05\x05\x05\x05\x05\x05\x05\x05\x05\x05\x05\x05\x05\x05\x05\x05\x05\x05\x05\x05\x05\x05\x05\x05\x05\x05\
    \x05\x05\x05\x05\x05\x05\x05\x05\x05\x04\x04\x04\x04\x05\x05\x05\x05\x04\x05\x05\x05\x05\x05\x05\x05\x05\x04\x04\x04";

const STARTS: [u8; 295] = *b"\
    \x45\x00\x20\x00\x00\x00\x00\x00\x00\x00\x0c\x00\x21\x00\x00\x04\x00\x00\x00\x00\x07\x00\x01\x00\x00\x07\x00\x01\x00\x01\
    \x07\x00\x01\x00\x02\x07\x00\x01\x00\x03\x07\x00\x01\x00\x04\x07\x00\x01\x00\x05\x07\x00\x01\x00\x06\x07\x00\x01\x00\x07\
    \x07\x00\x01\x00\x08\x07\x00\x01\x00\x09\x07\x00\x01\x00\x0a\x07\x00\x01\x00\x0b\x07\x00\x01\x00\x0c\x07\x00\x01\x00\x0d\
    \x07\x00\x01\x00\x0e\x07\x00\x01\x00\x0f\x07\x00\x01\x00\x10\x07\x00\x01\x00\x11\x07\x00\x01\x00\x12\x07\x00\x01\x00\x13\
    \x08\x00\x02\x00\x00\x08\x00\x02\x00\x01\x08\x00\x02\x00\x02\x08\x00\x02\x00\x03\x08\x00\x02\x00\x04\x08\x00\x02\x00\x05\
    \x08\x00\x02\x00\x06\x08\x00\x02\x00\x07\x08\x00\x02\x00\x08\x08\x00\x02\x00\x09\x08\x00\x02\x00\x0a\x08\x00\x02\x00\x0b\
    \x08\x00\x02\x00\x0c\x08\x00\x02\x00\x0d\x08\x00\x02\x00\x0e\x06\x00\x03\x00\x00\x08\x00\x04\x00\x00\x08\x00\x05\x00\x00\
    \x07\x00\x06\x00\x00\x09\x00\x07\x00\x00\x09\x00\x07\x00\x01\x09\x00\x07\x00\x02\x09\x00\x07\x00\x03\x0a\x00\x08\x00\x00\
    \x0a\x00\x09\x00\x00\x0a\x00\x09\x00\x01\x0a\x00\x09\x00\x02\x0a\x00\x09\x00\x03\x09\x00\x0a\x00\x00\x09\x00\x0a\x00\x01\
    \x09\x00\x0a\x00\x02\x09\x00\x0a\x00\x03\x05\x00\x0e\x00\x00\x05\x00\x0f\x00\x00\x07\x00\x11\x00\x00";

const SORT_COUNTS: [u8; 59] = *b"\
    \x01\x02\x01\x00\x02\x02\x02\x02\x02\x02\x02\x02\x02\x02\x02\x02\x02\x02\x02\x02\x02\x02\x02\x02\x03\x03\x03\x03\x03\x03\
    \x03\x03\x03\x03\x03\x03\x03\x03\x03\x02\x03\x03\x02\x04\x04\x04\x04\x05\x04\x04\x04\x04\x03\x03\x03\x03\x01\x01\x03";

const SORTS: [u8; 295] = *b"\
    m....ci...b.........rr...rr...rr...rr...rr...rr...rr...rr...rr...rr...rr...rr...rr...rr...rr...rr...rr...rr...rr...rr...rrr..\
    rrr..rrr..rrr..rrr..rrr..rrr..rrr..rrr..rrr..rrr..rrr..rrr..rrr..rrr..rr...rci..rci..ri...rrrr.rrrr.rrrr.rrrr.rrrcirrci.rrci.\
    rrci.rrci.rri..rri..rri..rri..n....n....rnn..";

// The bytes of a line by the number of its first word; the others begin at a position.
fn put_rest(n: usize, l: &[u8], at: usize) -> Option<Line>
    ensures { read_of result ≡ head_put (get_or heads n nothing) (words_of (drop at l.now)) }
{
    if n < 59 {
        let from = 5 * n;
        let long = byte(&START_LENGTHS, n) as usize;
        let count = byte(&SORT_COUNTS, n) as usize;
        let start = empty_line().text(&STARTS[from..from + long]);
        return put_words(start, &SORTS[from..from + count], l, at);
    }
    put_words(empty_line(), &SORTS[0..0], l, at)
}

// A line that was read: the number of its first word, and its bytes.
#[derive(Clone, Copy)]
pub struct LineRead {
    pub head: usize,
    pub line: Line,
}

// What a line is, and its bytes; none where it is no line.
pub fn read_line(l: &[u8]) -> Option<LineRead>
    ensures { as_line result ≡ and_then (line_of (words_of l.now)) told }
{
    let word = run_end(l, 0, 1);
    if l.len() <= word {
        return None;
    }
    let end = run_end(l, word, 0);
    let head = head_number(&l[word..end])?;
    let line = put_rest(head, l, end)?;
    Some(LineRead {
        head: head,
        line: line,
    })
}
