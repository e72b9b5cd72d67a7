// What the records that direct the play do to the marks. The table of ways has 66 marks for each label, as many labels as it has room for.
ghost use Rattle.std.specs.Prelude.{◌≤◌, ◌<◌, ◌+◌, ◌*◌, ◌-◌, ◌≡◌, false, ◌&&◌, length, get_or, leb};
ghost use Rattle.marks.specs.Marks.{everything};
ghost use Rattle.marks_pass.specs.Standing.{Made, Called, Noted, Entered, Branched, Jumped};

use super::work::draw;
use mir::fields::{byte, u16_at};

// The 66 marks of a label from an index on: what is filled on this way too.
fn note_at(ways: &mut [bool], from: usize, filled: &[bool])
    requires { (from + 66 ≤ length ways.old) × (length filled.now ≡ 256) }
    ensures { Made from 66 (λ k. get_or ways.old k false && get_or filled.now (k - from) false) ways.old ways.new }
{
    for i in 0..66 {
        let at = from + i;
        ways[at] = ways[at] & filled[i];
    }
}

// What is filled at a label: on every way.
fn enter_at(filled: &mut [bool], ways: &[bool], from: usize)
    requires { (from + 66 ≤ length ways.now) × (length filled.old ≡ 256) }
    ensures { Made 0 66 (λ i. get_or filled.old i false && get_or ways.now (from + i) false) filled.old filled.new }
{
    for i in 0..66 {
        filled[i] = filled[i] & ways[from + i];
    }
}

// No way leads on: every register counts as filled.
fn fill_all(filled: &mut [bool])
    requires { length filled.old ≡ 256 }
    ensures { Made 0 66 everything filled.old filled.new }
{
    for i in 0..66 {
        filled[i] = true;
    }
}

// A Call goes through the block, by what that draws on and fills from the start.
pub(crate) fn call(filled: &mut [bool], drawn: &mut [bool], fills: &[bool], draws: &[bool])
    requires filled_len { (length filled.old ≡ 256) × (length drawn.old ≡ 256) }
    requires fills_len { (length fills.now ≡ 256) × (length draws.now ≡ 256) }
    ensures { Called filled.old drawn.old fills.now draws.now filled.new drawn.new }
{
    for i in 0..66 {
        drawn[i] = drawn[i] | (draws[i] & !filled[i]);
        filled[i] = filled[i] | fills[i];
    }
}

// Whether the table has a label.
fn has(ways: &[bool], l: u8) -> bool
    ensures { result ≡ leb (66 * l + 66) (length ways.now) }
{
    66 * (l as usize) + 66 <= ways.len()
}

// A way to a label.
fn note(ways: &mut [bool], l: u8, filled: &[bool]) -> bool
    requires { length filled.now ≡ 256 }
    ensures { Noted ways.old l filled.now ways.new result }
{
    if has(ways, l) {
        note_at(ways, 66 * (l as usize), filled);
        return true;
    }
    false
}

fn enter(filled: &mut [bool], ways: &[bool], l: u8) -> bool
    requires { length filled.old ≡ 256 }
    ensures { Entered filled.old ways.now l filled.new result }
{
    if has(ways, l) {
        enter_at(filled, ways, 66 * (l as usize));
        return true;
    }
    false
}

fn branch(filled: &mut [bool], ways: &mut [bool], l: u8) -> bool
    requires { length filled.old ≡ 256 }
    ensures { Branched filled.old ways.old l filled.new ways.new result }
{
    let known = note(ways, l, filled);
    if l < 3 {
        fill_all(filled);
        return known;
    }
    known
}

// The Label, Branch or BranchIf that bytes begin with; false where the table has not its label, or bytes begin with none.
pub(crate) fn jump(s: &[u8], filled: &mut [bool], drawn: &mut [bool], ways: &mut [bool]) -> bool
    requires { (length filled.old ≡ 256) × (length drawn.old ≡ 256) }
    ensures { Jumped s.now filled.old drawn.old ways.old filled.new drawn.new ways.new result }
{
    let kind = u16_at(s, 2);
    let l = byte(s, 4);
    if kind == 14 {
        return enter(filled, ways, l);
    }
    if kind == 15 {
        return branch(filled, ways, l);
    }
    if kind == 17 {
        draw(filled, drawn, l);
        return note(ways, byte(s, 5), filled);
    }
    false
}
