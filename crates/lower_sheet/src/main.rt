// lower_sheet SHEET LISTING CONSTANTS [ORIGINS]: lowers a sheet, makes the files of its listing and of its constants, where one is named the
// file of their origins too, and says what came of it. On a refusal no file is made.
#![tactic(auto)]

ghost use Rattle.std.specs.Prelude.{◌≤◌, ◌≡◌, length};
ghost use Rattle.text.specs.Line.{Prints};
ghost use Rattle.text.specs.Puts.{Puts};
ghost use Rattle.interface.specs.Calls.{lower_call};
ghost use Rattle.lower_sheet.specs.Lowers.{answer_line, answer_text, Lowers};

mod drawn;

use drawn::put_drawn;
use interface::tulipcricket_lower_unguarded;
use reports::lowered_line;
use text::line::Line;
use text::put::put_line;
use words::word_at;

// The line for an answer of lowering.
fn answer_line(answer: &[u8]) -> Line
    ensures { Prints (answer_line answer.now) result }
{
    lowered_line(
        word_at(answer, 0),
        word_at(answer, 8),
        word_at(answer, 16),
        word_at(answer, 24),
    )
}

// The text for an answer of lowering, and its length: its line, and where the setup is right the line of the registers drawn on.
fn put_answer(out: &mut [u8], answer: &[u8]) -> usize
    requires in_bounds { 8192 ≤ length out.old }
    requires answer_len { length answer.now ≡ 260 }
    ensures { Puts out.old 0 (answer_text answer.now) out.new result }
{
    let at = put_line(out, 0, answer_line(answer));
    if word_at(answer, 0) == 8 {
        return at;
    }
    put_drawn(out, at, &answer[194..260])
}

// Lowers into the lent bytes, and puts the text for what came of it.
fn lower_bytes(
    sheet: &[u8],
    listing: &mut [u8],
    constants: &mut [u8],
    origins: &mut [u8],
    answer: &mut [u8],
    out: &mut [u8],
) -> usize
    requires in_bounds { 8192 ≤ length out.old }
    requires answer_len { length answer.old ≡ 260 }
    ensures { Lowers (lower_call sheet.now listing.old constants.old origins.old answer.old) out.old listing.new constants.new origins.new answer.new out.new result }
{
    tulipcricket_lower_unguarded(sheet, listing, constants, origins, answer);
    put_answer(out, answer)
}

// Makes the file of the origins where one is named: two bytes for each constant.
fn make_origins(rt: HostRuntime, origins: &[u8], size: usize) -> bool {
    if files::arg_count(rt) == 4 {
        return true;
    }
    files::make_arg(rt, 4, origins, size).is_some()
}

// Makes all files that are named, or none.
fn make_files(
    rt: HostRuntime,
    listing: &[u8],
    bytes: usize,
    constants: &[u8],
    origins: &[u8],
    words: usize,
) -> bool {
    if files::make_arg(rt, 2, listing, bytes).is_none() {
        return false;
    }
    let count = words.min(256);
    if files::make_arg(rt, 3, constants, 8 * count).is_some() {
        if make_origins(rt, origins, 2 * count) {
            return true;
        }
        let _ = files::remove_arg(rt, 3);
    }
    let _ = files::remove_arg(rt, 2);
    false
}

fn lower_file(rt: HostRuntime, sheet: &[u8]) {
    let mut listing = [0u8; 65536];
    let mut constants = [0u8; 2048];
    let mut origins = [0u8; 512];
    let mut answer = [0u8; 260];
    let mut out = [0u8; 8192];
    let n = lower_bytes(
        sheet,
        &mut listing,
        &mut constants,
        &mut origins,
        &mut answer,
        &mut out,
    );
    let bytes = word_at(&answer, 16) as usize;
    let words = word_at(&answer, 24) as usize;
    if word_at(&answer, 0) == 0 && !make_files(rt, &listing, bytes, &constants, &origins, words) {
        return;
    }
    files::print(rt, &out, n);
}

// A sheet of which not all is read is not lowered.
fn main(rt: HostRuntime) {
    let given = files::arg_count(rt);
    if !files::usage(
        rt,
        given == 4 || given == 5,
        b"lower_sheet SHEET LISTING CONSTANTS [ORIGINS]",
    ) {
        return;
    }
    let mut sheet = files::sheet_room();
    let Ok(n) = files::read_arg(rt, 1, &mut sheet) else {
        return;
    };
    if files::sheet_fits(rt, n) {
        lower_file(rt, &sheet[..n]);
    }
}
