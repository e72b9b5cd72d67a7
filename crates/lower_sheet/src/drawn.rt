// Which registers a listing draws on, put into lent bytes as a line.
ghost use Rattle.std.specs.Prelude.{◌+◌, ◌*◌, ◌≤◌, cond, [], eqb, length};
ghost use Rattle.text.specs.Line.{Prints};
ghost use Rattle.text.specs.Puts.{Puts};
ghost use Rattle.text.specs.Text.{space, register};
ghost use Rattle.lower_sheet.specs.Lowers.{marked_names, drawn_line};

use text::line::{Line, empty_line};
use text::put::{put, put_line};

// A register's name after a space, or nothing where its mark is not set.
fn name_or_none(mark: u8, i: u8) -> Line
    ensures { Prints (cond (eqb mark 0) [] (space (register i))) result }
{
    if mark == 0 {
        return empty_line();
    }
    empty_line().byte(b' ').register(i)
}

// The names of the registers whose marks are set. A line has at most 80 bytes.
fn put_names(out: &mut [u8], start: usize, marks: &[u8]) -> usize
    requires marks_len_bound { length marks.now ≤ 66 }
    requires marks_in_bounds { start + 80 * length marks.now ≤ length out.old }
    ensures { (Puts out.old start (marked_names 0 marks.now) out.new result) × (result ≤ start + 80 * length marks.now) }
{
    let mut at = start;
    for (i, mark) in marks.iter().enumerate() {
        let name = name_or_none(*mark, i as u8);
        at = put_line(out, at, name);
    }
    at
}

// The line of the registers whose marks are set.
pub(crate) fn put_drawn(out: &mut [u8], start: usize, marks: &[u8]) -> usize
    requires marks_len_bound { length marks.now ≤ 66 }
    requires start_in_bounds { start + 6000 ≤ length out.old }
    ensures { Puts out.old start (drawn_line marks.now) out.new result }
{
    let from = put(out, start, b"draws on");
    let to = put_names(out, from, marks);
    if to == from {
        return put(out, to, b" nothing\n");
    }
    put(out, to, b"\n")
}
