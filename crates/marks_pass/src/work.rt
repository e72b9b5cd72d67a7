// What working records do to the marks, without a test of their kind: all that differs stands in a table, a row of eight for each kind. A set
// of registers is kept as 256 marks, one for each byte, of which the first 66 count.
ghost use Rattle.std.specs.Prelude.{◌≤◌, ◌<◌, ◌+◌, ◌≡◌, cond, ◌&&◌, [], ◌∷◌, length, get_or, eqb};
ghost use Rattle.marks_pass.specs.Table.{table};
ghost use Rattle.marks_pass.specs.Standing.{Drawn, Filled, Marked, Does, Straight};

use mir::fields::{byte, u16_at};

// The table, a row for each kind from 0 to 13: where the registers begin that it draws on, and those that it fills; then of four drawn on and
// of two filled 0, or 128 where the kind has none. Kinds 0, 9 and 10 stand in no listing.
const ROWS: [u8; 112] = *b"\
    \x04\x04\x80\x80\x80\x80\x80\x80\
    \x06\x05\x00\x80\x80\x80\x00\x80\
    \x06\x05\x00\x00\x80\x80\x00\x80\
    \x05\x04\x00\x80\x80\x80\x00\x80\
    \x04\x04\x80\x80\x80\x80\x00\x80\
    \x04\x04\x00\x80\x80\x80\x80\x80\
    \x04\x04\x80\x80\x80\x80\x00\x80\
    \x06\x05\x00\x00\x00\x80\x00\x80\
    \x05\x04\x00\x00\x80\x80\x00\x80\
    \x04\x04\x80\x80\x80\x80\x80\x80\
    \x04\x04\x80\x80\x80\x80\x80\x80\
    \x04\x04\x80\x80\x80\x80\x00\x00\
    \x04\x04\x00\x00\x80\x80\x80\x80\
    \x07\x05\x00\x00\x00\x00\x00\x00";

// A register is drawn on: marked where it is not filled.
pub(crate) fn draw(filled: &[bool], drawn: &mut [bool], r: u8)
    requires { (length filled.now ≡ 256) × (length drawn.old ≡ 256) }
    ensures { Drawn filled.now drawn.old (r ∷ []) drawn.new }
{
    let i = r as usize;
    drawn[i] = drawn[i] | !filled[i];
}

// A register is filled.
fn fill(filled: &mut [bool], r: u8)
    requires { length filled.old ≡ 256 }
    ensures { Filled filled.old (r ∷ []) filled.new }
{
    filled[r as usize] = true;
}

// Six bytes of a record are taken as registers, four drawn on and two filled; where the row has 128, as one that does not count.
fn mark(
    rows: &[u8],
    row: usize,
    a: u8,
    b: u8,
    c: u8,
    d: u8,
    x: u8,
    y: u8,
    filled: &mut [bool],
    drawn: &mut [bool],
)
    requires row_in_bounds { row + 8 ≤ length rows.now }
    requires filled_len { (length filled.old ≡ 256) × (length drawn.old ≡ 256) }
    ensures { Marked rows.now row a b c d x y filled.old drawn.old filled.new drawn.new }
{
    draw(filled, drawn, a | rows[row + 2]);
    draw(filled, drawn, b | rows[row + 3]);
    draw(filled, drawn, c | rows[row + 4]);
    draw(filled, drawn, d | rows[row + 5]);
    fill(filled, x | rows[row + 6]);
    fill(filled, y | rows[row + 7]);
}

fn wide(b: u8) -> usize
    ensures { result ≡ b }
{
    b as usize
}

// A place of the table that says where registers begin.
fn start_of(rows: &[u8], i: usize) -> usize
    requires { i < length rows.now }
    ensures { result ≡ get_or rows.now i 0 }
{
    wide(rows[i])
}

// 128 for a Xor of one register with itself, which draws on nothing.
fn aside(kind: u16, op: u8, a: u8, b: u8) -> u8
    ensures { result ≡ cond (eqb kind 2 && eqb op 13 && eqb a b) 128 0 }
{
    if (kind == 2) & (op == 13) & (a == b) {
        128
    } else {
        0
    }
}

// The working record that bytes begin with, 11 or more. Its length; 0 where they begin with none.
fn work(rows: &[u8], s: &[u8], filled: &mut [bool], drawn: &mut [bool]) -> usize
    requires rows_value { rows.now ≡ table }
    requires in_bounds { 11 ≤ length s.now }
    requires filled_len { (length filled.old ≡ 256) × (length drawn.old ≡ 256) }
    ensures { Does s.now filled.old drawn.old filled.new drawn.new result }
{
    let kind = u16_at(s, 2);
    if 13 < kind {
        return 0;
    }
    let row = 8 * (kind as usize);
    let d = start_of(rows, row);
    let f = start_of(rows, row + 1);
    let a = s[d];
    let b = s[d + 1];
    let e = aside(kind, s[4], a, b);
    mark(
        rows,
        row,
        a | e,
        b | e,
        s[d + 2],
        s[d + 3],
        s[f],
        s[f + 1],
        filled,
        drawn,
    );
    u16_at(s, 0) as usize
}

// The same of fewer bytes.
fn work_last(rows: &[u8], s: &[u8], filled: &mut [bool], drawn: &mut [bool]) -> usize
    requires rows_value { rows.now ≡ table }
    requires filled_len { (length filled.old ≡ 256) × (length drawn.old ≡ 256) }
    ensures { Does s.now filled.old drawn.old filled.new drawn.new result }
{
    let kind = u16_at(s, 2);
    if 13 < kind {
        return 0;
    }
    let row = 8 * (kind as usize);
    let d = start_of(rows, row);
    let f = start_of(rows, row + 1);
    let a = byte(s, d);
    let b = byte(s, d + 1);
    let e = aside(kind, byte(s, 4), a, b);
    mark(
        rows,
        row,
        a | e,
        b | e,
        byte(s, d + 2),
        byte(s, d + 3),
        byte(s, f),
        byte(s, f + 1),
        filled,
        drawn,
    );
    u16_at(s, 0) as usize
}

// Either.
fn work_at(rows: &[u8], s: &[u8], filled: &mut [bool], drawn: &mut [bool]) -> usize
    requires rows_value { rows.now ≡ table }
    requires filled_len { (length filled.old ≡ 256) × (length drawn.old ≡ 256) }
    ensures { Does s.now filled.old drawn.old filled.new drawn.new result }
{
    if 11 <= s.len() {
        return work(rows, s, filled, drawn);
    }
    work_last(rows, s, filled, drawn)
}

// The working records from a position on, one after the other; the position behind them.
pub(crate) fn straight(
    listing: &[u8],
    from: usize,
    filled: &mut [bool],
    drawn: &mut [bool],
) -> usize
    requires { (length filled.old ≡ 256) × (length drawn.old ≡ 256) }
    ensures { Straight listing.now from filled.old drawn.old filled.new drawn.new result }
{
    let rows = ROWS;
    // By position: a turn passes over a record, whose length differs.
    let mut at = from;
    while at < listing.len() {
        let s = &listing[at..];
        let n = work_at(&rows, s, filled, drawn);
        if n == 0 {
            return at;
        }
        at += n;
    }
    at
}
