// sheet_text [SHEET]: prints a sheet, from a file or from standard input, as text, one line for its mode, each real place, each constant
// and each instruction; or the refusal.
#![tactic(auto)]

ghost use Rattle.std.specs.Prelude.{◌≤◌, length};
ghost use Rattle.text.specs.Puts.{Puts};
ghost use Rattle.assembly.specs.SheetText.{printed_text};

mod printing;

use printing::{examined, put_lines};
use reports::refusal_line;
use sheet::setup::read_setup;
use text::put::put_line;

// The text for a sheet, and its length. A line has at most 80 bytes: one for the mode, 512 places, 251 constants and 612 instructions.
fn put_sheet(out: &mut [u8], sheet: &[u8]) -> usize
    requires { 110080 ≤ length out.old }
    ensures { Puts out.old 0 (printed_text sheet.now) out.new result }
{
    let Ok(s) = read_setup(sheet) else {
        return put_line(out, 0, refusal_line(8, 0));
    };
    let seen = examined(sheet, s.start, s.count);
    if seen.number != 0 {
        return put_line(out, 0, refusal_line(seen.number as u64, seen.index));
    }
    put_lines(out, sheet, s)
}

fn print_sheet(rt: HostRuntime, sheet: &[u8]) {
    let mut out = [0u8; 110080];
    let n = put_sheet(&mut out, sheet);
    files::print(rt, &out, n);
}

// A sheet of which not all is read is not printed.
fn main(rt: HostRuntime) {
    let mut sheet = files::sheet_room();
    let Ok(n) = files::read_input(rt, &mut sheet) else {
        return;
    };
    if files::sheet_fits(rt, n) {
        print_sheet(rt, &sheet[..n]);
    }
}
