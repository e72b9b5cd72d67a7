// listing [SHEET]: lowers a sheet, from a file or from standard input, and prints its constants and its listing, or the refusal, with its
// word where a file is named.
#![tactic(auto)]

ghost use Rattle.std.specs.Prelude.{◌+◌, ◌*◌, ◌≤◌, length};
ghost use Rattle.text.specs.Puts.{Puts};
ghost use Rattle.files.specs.Counts.{IsReadLen};
ghost use Rattle.text.specs.Line.{Prints};
ghost use Rattle.listing.specs.Printed.{refusal_of, text_of, printed_for};

mod page;

use complexify::entry::{LowerAnswer, lower};
use files::{CutShort, read_all, read_arg, write_out};
use page::{put_line, put_page};
use reports::refusal_line;
use text::line::Line;
use text::lines::refused_line;

fn refusal(named: bool, number: u64, index: u64) -> Line
    ensures { Prints (refusal_of named number index) result }
{
    if named {
        return refusal_line(number, index);
    }
    refused_line(number, index)
}

// The text for what lowering gave back: of the first `count` words and the first `written` bytes.
fn put_text(out: &mut [u8], named: bool, a: LowerAnswer, constants: &[u64], listing: &[u8]) -> usize
    requires listing_in_bounds { 80 * length constants.now + 5 * length listing.now + 160 ≤ length out.old }
    requires count_in_bounds { (a.count ≤ length constants.now) × (a.written ≤ length listing.now) }
    ensures { Puts out.old 0 (text_of named a constants.now listing.now) out.new result }
{
    if a.number != 0 {
        return put_line(out, 0, refusal(named, a.number as u64, a.index as u64));
    }
    let count = a.count;
    let written = a.written;
    put_page(out, &constants[0..count], &listing[0..written])
}

// The text for a sheet, and its length.
fn put_sheet(sheet: &[u8], named: bool, out: &mut [u8]) -> usize
    requires { 348320 ≤ length out.old }
    ensures { Puts out.old 0 (printed_for named sheet.now) out.new result }
{
    let mut listing = [0u8; 65536];
    let mut constants = [0u64; 256];
    let mut origins = [0u16; 256];
    let a = lower(sheet, &mut listing, &mut constants, &mut origins);
    put_text(out, named, a, &constants, &listing)
}

fn read_sheet(rt: HostRuntime, named: bool, sheet: &mut [u8]) -> Result<usize, CutShort>
    ensures { IsReadLen result sheet.new }
{
    if named {
        return read_arg(rt, 1, sheet);
    }
    read_all(rt, b"listing: ", b"standard input", &mut rt.stdin(), sheet)
}

// The text has at most five bytes for each of a listing's 65,536, and 80 for each of the other 258 lines. A sheet of which not all is read is
// not lowered. That, and a read or a write that fails, is told on standard error; the program's status is 0 in any case.
fn main(rt: HostRuntime) {
    let named = files::arg_count(rt) == 2;
    let mut sheet = files::sheet_room();
    let Ok(n) = read_sheet(rt, named, &mut sheet) else {
        return;
    };
    if !files::sheet_fits(rt, n) {
        return;
    }
    let mut out = [0u8; 348320];
    let m = put_sheet(&sheet[..n], named, &mut out);
    write_out(rt, b"listing: ", &out[0..m]);
}
