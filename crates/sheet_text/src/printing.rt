// The text of a sheet, put into lent bytes.
ghost use Rattle.std.specs.Prelude.{◌+◌, ◌*◌, ◌≤◌, ◌≡◌, [], cond, length, drop};
ghost use Rattle.text.specs.Line.{Prints};
ghost use Rattle.sheet.specs.Setup.{as_setup, constants_of};
ghost use Rattle.sheet.specs.Instruction.{instructions};
ghost use Rattle.text.specs.Puts.{Puts};
ghost use Rattle.assembly.specs.Lines.{real_line};
ghost use Rattle.sheet_text.specs.Seen.{seen_of};
ghost use Rattle.assembly.specs.SheetText.{real_lines, constant_lines, instruction_lines, lines_of};

use assembly::lines::{constant_line, instruction_line, mode_line, real_line};
use lowering::realness::bit_at;
use sheet::reader::{LONGEST, read_instruction};
use sheet::setup::{Setup, constant_at};
use text::line::{Line, empty_line};
use text::put::put_line;

// The line of a place that is recorded as real, or no line.
fn real_or_none(real: bool, i: u16) -> Line
    ensures { Prints (cond real (real_line i) []) result }
{
    if real {
        return real_line(i);
    }
    empty_line()
}

fn put_reals(out: &mut [u8], start: usize, places: [u8; 64]) -> usize
    requires { start + 40960 ≤ length out.old }
    ensures { (Puts out.old start (real_lines places 512 0) out.new result) × (result ≤ start + 40960) }
{
    let mut at = start;
    for i in 0..512u16 {
        let real = bit_at(places, i as usize);
        let line = real_or_none(real, i);
        at = put_line(out, at, line);
    }
    at
}

fn put_constants(out: &mut [u8], start: usize, sheet: &[u8], count: usize) -> usize
    requires { start + 80 * count ≤ length out.old }
    ensures { (Puts out.old start (constant_lines (constants_of sheet.now count)) out.new result) × (result ≤ start + 80 * count) }
{
    let mut at = start;
    for i in 0..count {
        let line = constant_line(constant_at(sheet, i));
        at = put_line(out, at, line);
    }
    at
}

// The number that refuses an instruction of a sheet, 0 where none is refused, and how many stand before it.
#[derive(Clone, Copy)]
pub(crate) struct Seen {
    pub(crate) number: u8,
    pub(crate) index: u64,
}

// The instructions from a position on, up to the first that is refused, or to the one that is too many.
pub(crate) fn examined(sheet: &[u8], first: usize, count: usize) -> Seen
    ensures { result ≡ seen_of (instructions count (drop first sheet.now)) }
{
    let mut at = first;
    let mut n: u64 = 0;
    while at < sheet.len() {
        if n == LONGEST as u64 {
            return Seen {
                number: 14,
                index: n,
            };
        }
        match read_instruction(sheet, at, count) {
            Ok((_, next)) => {
                at = next;
            }
            Err(refusal) => {
                return Seen {
                    number: refusal.number(),
                    index: n,
                };
            }
        }
        n += 1;
    }
    Seen {
        number: 0,
        index: n,
    }
}

// The lines of the instructions from a position on, up to the first that is refused, or to the last that a sheet may have.
fn put_instructions(out: &mut [u8], start: usize, sheet: &[u8], first: usize, count: usize) -> usize
    requires { start + 48960 ≤ length out.old }
    ensures { Puts out.old start (instruction_lines (instructions count (drop first sheet.now)).items) out.new result }
{
    let mut at = start;
    let mut from = first;
    let mut n: usize = 0;
    while n < LONGEST {
        let Ok((instruction, next)) = read_instruction(sheet, from, count) else {
            return at;
        };
        let line = instruction_line(instruction);
        at = put_line(out, at, line);
        from = next;
        n += 1;
    }
    at
}

// The text of a sheet whose setup is right.
pub(crate) fn put_lines(out: &mut [u8], sheet: &[u8], s: Setup) -> usize
    requires in_bounds { 110080 ≤ length out.old }
    requires count_bound { s.count ≤ 251 }
    ensures { Puts out.old 0 (lines_of sheet.now (as_setup (Ok s))) out.new result }
{
    let mode = s.mode;
    let at = put_line(out, 0, mode_line(mode));
    let places = s.places;
    let at = put_reals(out, at, places);
    let at = put_constants(out, at, sheet, s.count);
    put_instructions(out, at, sheet, s.start, s.count)
}
