// A sheet's labels and branches: 10, where one is misplaced, and 11, where the records at a label differ from those at a branch to it.
// What is known of a label stands in two lent tables by its number: a mark, and a row of 96 bytes.
ghost use Rattle.std.specs.Prelude.{◌≡◌, cond, ◌||◌, drop, set};
ghost use Rattle.mir.specs.Read.{got, refused};
ghost use Rattle.sheet.specs.Instruction.{branch_if_from};
ghost use Rattle.lowering.specs.Labels.{label_seen, bytes_same, labels, branches};
ghost use Rattle.refusals.specs.Noted.{label_here, row, unlike, seen_in, mark_seen, mark_all, is_label, any_label, role_read, Passed, PassedKind, PassedFirst, BranchNoted};

use lowering::bytes::record_bytes;
use lowering::realness::Realness;
use mir::fields::{byte, read_head, u16_at};
use mir::refusal::Refusal;
use words::put;

// A label's marks: one stands ahead; branches to it stood, all with the records in its row; they stood with unlike records; it stood
// itself. Where none of its number stands ahead the mark is 0.
const AHEAD: u8 = 1;

const ROW: u8 = 2;

const UNLIKE: u8 = 3;

const STOOD: u8 = 4;

// The first label of a sheet's own, and the last of its registers.
const FIRST_LABEL: u8 = 3;

const LAST: u8 = 31;

fn set_mark(marks: &mut [u8], label: u8, mark: u8)
    ensures { marks.new ≡ set marks.old label mark }
{
    let l = label as usize;
    if l < marks.len() {
        marks[l] = mark;
    }
}

// Whether looking ahead stops at the record that bytes begin with: one that would earn 1. A kind that sheets do not take is passed.
fn is_torn(s: &[u8]) -> bool
    ensures { label_seen s.now ≡ cond result (refused 1) (got (label_here s.now)) }
{
    match read_head(s, false) {
        Ok(_) => false,
        Err(refusal) => refusal == Refusal::TornRecord,
    }
}

// Marks the label of the record that bytes begin with, where it is a Label; whether it is one.
fn mark_label(s: &[u8], marks: &mut [u8]) -> bool
    ensures { (result ≡ is_label (label_here s.now))
        × (marks.new ≡ mark_seen (label_here s.now) marks.old) }
{
    if u16_at(s, 2) == 14 {
        set_mark(marks, byte(s, 4), AHEAD);
        return true;
    }
    false
}

// Marks the labels that stand from a position on, up to the first torn record; whether there is one.
pub fn find_labels(sheet: &[u8], start: usize, marks: &mut [u8]) -> bool
    ensures { (result ≡ any_label (seen_in (drop start sheet.now)))
        × (marks.new ≡ mark_all (seen_in (drop start sheet.now)) marks.old) }
{
    // By position: a turn passes over a record, whose length differs.
    let mut at = start;
    let mut any = false;
    while at < sheet.len() {
        let s = &sheet[at..];
        if is_torn(s) {
            return any;
        }
        let found = mark_label(s, marks);
        any = any | found;
        let n = u16_at(s, 0);
        at += n as usize;
    }
    any
}

// Whether a label's row holds these bytes.
fn row_is(rows: &[u8], label: u8, bytes: [u8; 96]) -> bool
    ensures { result ≡ bytes_same (row label rows.now) bytes }
{
    let at = 96 * (label as usize);
    for i in 0..96 {
        if byte(rows, at + i) != bytes[i] {
            return false;
        }
    }
    true
}

// A branch to a label that stands ahead, with the records in these bytes.
fn note_branch(label: u8, bytes: [u8; 96], marks: &mut [u8], rows: &mut [u8])
    ensures { BranchNoted label bytes marks.old rows.old marks.new rows.new }
{
    let mark = byte(marks, label as usize);
    if mark == AHEAD {
        put(rows, 96 * (label as usize), &bytes);
        set_mark(marks, label, ROW);
        return;
    }
    if mark == ROW {
        if !row_is(rows, label, bytes) {
            set_mark(marks, label, UNLIKE);
        }
    }
}

fn pass_branch(label: u8, real: Realness, marks: &mut [u8], rows: &mut [u8]) -> u8
    ensures { Passed (branches label) real marks.old rows.old marks.new rows.new result }
{
    let mark = byte(marks, label as usize);
    if mark == 0 {
        return 10;
    }
    if mark == STOOD {
        return 10;
    }
    note_branch(label, record_bytes(real), marks, rows);
    0
}

// Whether records differ from those at a branch to a label with this mark.
fn is_unlike(mark: u8, label: u8, real: Realness, rows: &[u8]) -> bool
    ensures { result ≡ unlike mark (row label rows.now) real }
{
    if mark == ROW {
        return !row_is(rows, label, record_bytes(real));
    }
    ROW < mark
}

// A BranchIf.
fn pass_branch_if(s: &[u8], real: Realness, marks: &mut [u8], rows: &mut [u8]) -> u8
    ensures { Passed (role_read (branch_if_from s.now)) real marks.old rows.old marks.new rows.new result }
{
    if LAST < byte(s, 4) {
        return 0;
    }
    let label = byte(s, 5);
    if label < FIRST_LABEL {
        return 0;
    }
    if 1 < byte(s, 6) {
        return 0;
    }
    pass_branch(label, real, marks, rows)
}

fn pass_label(label: u8, real: Realness, marks: &mut [u8], rows: &[u8]) -> u8
    ensures { Passed (labels label) real marks.old rows.now marks.new rows.now result }
{
    let mark = byte(marks, label as usize);
    if mark == STOOD {
        return 10;
    }
    if is_unlike(mark, label, real, rows) {
        return 11;
    }
    set_mark(marks, label, STOOD);
    0
}

// The same for a record by its kind and its bytes: a label or a branch, where it is read. A label of the sheet's own is 3 to 255.
fn pass_kind(kind: u16, s: &[u8], real: Realness, marks: &mut [u8], rows: &mut [u8]) -> u8
    ensures { PassedKind kind s.now real marks.old rows.old marks.new rows.new result }
{
    if kind == 17 {
        return pass_branch_if(s, real, marks, rows);
    }
    let label = byte(s, 4);
    if kind == 14 {
        if label < FIRST_LABEL {
            return 0;
        }
        return pass_label(label, real, marks, rows);
    }
    if kind == 15 {
        if label < FIRST_LABEL {
            return 0;
        }
        return pass_branch(label, real, marks, rows);
    }
    0
}

// 10 or 11 where it refuses the instruction at a position; else 0, and the tables are those behind it. An instruction that is refused as it
// is read is passed over.
pub fn pass_at(sheet: &[u8], at: usize, real: Realness, marks: &mut [u8], rows: &mut [u8]) -> u8
    ensures { PassedFirst (drop at sheet.now) real marks.old rows.old marks.new rows.new result }
{
    if sheet.len() < at {
        return 0;
    }
    let s = &sheet[at..];
    if u16_at(s, 2) < 14 {
        return 0;
    }
    match read_head(s, false) {
        Ok(kind) => pass_kind(kind, s, real, marks, rows),
        Err(_) => 0,
    }
}
