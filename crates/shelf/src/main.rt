// Reads a sheet from standard input and prints how much shelf it will take, or the refusal.
#![tactic(auto)]

ghost use Rattle.text.specs.Line.{empty_line, Adds, Prints};
ghost use Rattle.shelf.specs.Printed.{figures_text, printed};

use figures::entry::shelf;
use files::{read_all, write_out};
use text::line::{Line, empty_line};
use text::lines::refused_line;

// Three lines, one for each figure.
fn figures_text(bytes: u64, constants: u64, records: u64) -> Line
    ensures { Adds empty_line (figures_text bytes constants records) result }
{
    empty_line()
        .text(b"bytes")
        .number(bytes)
        .byte(b'\n')
        .text(b"constants")
        .number(constants)
        .byte(b'\n')
        .text(b"records")
        .number(records)
        .byte(b'\n')
}

// The text for a sheet.
fn text_of(sheet: &[u8]) -> Line
    ensures { Prints (printed sheet.now) result }
{
    let f = shelf(sheet);
    if f.number != 0 {
        return refused_line(f.number as u64, f.index as u64);
    }
    figures_text(f.bytes as u64, f.constants as u64, f.records as u64)
}

// A sheet of which not all is read has no figures. That, and a read or a write that fails, is told on standard error; the program's status is
// 0 in any case.
fn main(rt: HostRuntime) {
    let mut sheet = files::sheet_room();
    let read = read_all(
        rt,
        b"shelf: ",
        b"standard input",
        &mut rt.stdin(),
        &mut sheet,
    );
    let Ok(n) = read else {
        return;
    };
    if !files::sheet_fits(rt, n) {
        return;
    }
    let line = text_of(&sheet[..n]);
    let bytes = line.bytes;
    let m = line.len;
    write_out(rt, b"shelf: ", &bytes[0..m]);
}
