// The lines of a page, by their columns.
ghost use Rattle.std.specs.Prelude.{◌+◌, ◌-◌, ◌≤◌, ◌<◌, ◌≡◌, [], ◌∷◌, ◌++◌, length};
ghost use Rattle.text.specs.Line.{Adds, Prints};
ghost use Rattle.text.specs.Puts.{Puts};
ghost use Rattle.text.specs.Text.{decimal};
ghost use Rattle.pages.specs.Pages.{spaces, right, row_line, blank_line, constant_row, record_row, lines};
ghost use Rattle.pages.specs.Standing.{rows_at, FirstLine};

use mir::records::Record;
use records::reader::read_record;
use text::line::{Line, empty_line};
use text::put::put_line;

fn spaces(line: Line, n: usize) -> Line
    ensures { Adds line (spaces n) result }
{
    let mut line = line;
    for _i in 0..n {
        line = line.byte(b' ');
    }
    line
}

// How many of n columns a text of k bytes leaves.
pub(crate) fn left_of(n: usize, k: usize) -> usize
    ensures { result ≡ n - k }
{
    n.saturating_sub(k)
}

// Spaces up to a column, and a byte.
fn fill_to(line: Line, column: usize, b: u8) -> Line
    ensures { Adds line (spaces (column - line.len) ++ b ∷ []) result }
{
    spaces(line, left_of(column, line.len)).byte(b)
}

// The index in its columns, and a space.
fn index_line(index: usize) -> Line
    ensures { Prints (right 5 (decimal index) ++ 32 ∷ []) result }
{
    let digits = empty_line().decimal(index as u64);
    spaces(empty_line(), left_of(5, digits.len))
        .decimal(index as u64)
        .byte(b' ')
}

fn blank_line() -> Line
    ensures { Prints blank_line result }
{
    fill_to(empty_line(), 72, b'\n')
}

fn constant_line(index: usize, word: u64) -> Line
    requires { index < 100000 }
    ensures { Prints (row_line (constant_row index word)) result }
{
    let line = fill_to(index_line(index).text(b"Constant"), 22, b' ');
    fill_to(line.hex(word), 72, b'\n')
}

fn record_line(index: usize, record: Record) -> Line
    requires { index < 100000 }
    ensures { Prints (row_line (record_row index «record»)) result }
{
    let line = fill_to(index_line(index).record_name(record), 22, b' ');
    fill_to(line.record_operands(record), 72, b'\n')
}

// A line, and the position of the record behind it.
#[derive(Clone, Copy)]
pub struct LineAt {
    pub line: Line,
    pub next: usize,
}

// Line i, with the records from a position on behind the constants.
fn line_at(constants: &[u64], listing: &[u8], i: usize, from: usize) -> LineAt
    requires { i < 100000 }
    ensures { FirstLine constants.now listing.now i from result }
{
    if i < constants.len() {
        return LineAt {
            line: constant_line(i, constants[i]),
            next: from,
        };
    }
    if listing.len() <= from {
        return LineAt {
            line: blank_line(),
            next: from,
        };
    }
    match read_record(listing, from, constants.len()) {
        Ok((record, next)) => LineAt {
            line: record_line(i - constants.len(), record),
            next: next,
        },
        Err(_) => LineAt {
            line: blank_line(),
            next: from,
        },
    }
}

// Puts n lines from line `first` on, with the records behind the constants from a position on; where they end.
pub(crate) fn put_lines(
    out: &mut [u8],
    constants: &[u64],
    listing: &[u8],
    first: usize,
    start: usize,
    n: usize,
) -> usize
    requires n_bound { first + n < 100000 }
    requires start_in_bounds { length (lines n (rows_at constants.now listing.now first start)) ≤ length out.old }
    ensures { Puts out.old 0 (lines n (rows_at constants.now listing.now first start)) out.new result }
{
    let mut at: usize = 0;
    let mut from = start;
    for k in 0..n {
        let q = line_at(constants, listing, first + k, from);
        at = put_line(out, at, q.line);
        from = q.next;
    }
    at
}
