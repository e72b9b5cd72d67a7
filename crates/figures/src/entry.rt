// The figures of a sheet. No listing is made: the records of one instruction stand in the stage at a time.
ghost use Rattle.std.specs.Prelude.{◌≡◌, ◌≤◌, length, drop, replicate};
ghost use Rattle.lowering.specs.Labels.{none_standing};
ghost use Rattle.refusals.specs.Noted.{Noted};
ghost use Rattle.figures.specs.Shelf as Spec;
ghost use Rattle.figures.specs.Walk.{CountWithin};
ghost use Rattle.figures.specs.Taken.{CountReady, left, figures_at};

use super::counting::Count;
use super::turn::{CountCursor, one};
use complexifier::state::Complexifier;
use complexify::copying::put_constants;
use lowering::realness::Realness;
use refusals::labels::{find_labels, pass_at};
use sheet::reader::LONGEST;
use sheet::setup::{Mode, read_setup};

// The number (0: lowering would accept) and index of lowering with 65,536 bytes; the listing's bytes, the count of constants and the
// records that a play from record 0 would run, or, of a sheet that branches, the most that one could.
#[derive(Clone, Copy)]
pub struct Figures {
    pub number: u8,
    pub index: usize,
    pub bytes: usize,
    pub constants: usize,
    pub records: usize,
}

fn refusal(number: u8, index: usize) -> Figures
    ensures { result ≡ Spec.refusal number index }
{
    Figures {
        number: number,
        index: index,
        bytes: 0,
        constants: 0,
        records: 0,
    }
}

// The records of a play: all, less the block where no branch stands, and the block once for each Call.
fn records_run(taken: Count) -> usize
    requires { CountWithin taken }
    ensures { result ≡ Spec.run taken }
{
    let block = taken.block;
    if taken.branches == 0 {
        return taken.records - block + taken.calls * block;
    }
    taken.records + taken.calls * block
}

// The figures where the work ends with a number.
fn figures_at(number: u8, p: CountCursor) -> Figures
    requires { CountWithin p.taken }
    ensures { result ≡ figures_at number p }
{
    if number != 0 {
        return refusal(number, p.index);
    }
    let taken = p.taken;
    Figures {
        number: 0,
        index: p.index,
        bytes: taken.bytes,
        constants: p.constants,
        records: records_run(taken),
    }
}

// The instructions from where the count stands to the end of the sheet.
fn run(
    sheet: &[u8],
    own: usize,
    mode: Mode,
    start: CountCursor,
    marks: &mut [u8],
    rows: &mut [u8],
    constants: &mut [u64],
) -> Figures
    requires count_ready { CountReady (replicate 704 0) constants.old start }
    requires index_bound { start.index ≤ 612 }
    requires noted { Noted none_standing (drop start.at sheet.now) marks.old rows.old }
    ensures { result ≡ left mode own sheet.now none_standing constants.old start }
{
    let mut stage = [0u8; 704];
    // By position: a turn passes over an instruction, whose length differs.
    let mut p = start;
    while p.at < sheet.len() {
        if p.index == LONGEST {
            return figures_at(14, p);
        }
        let low = p.low;
        let real = low.real;
        let number = pass_at(sheet, p.at, real, marks, rows);
        if number != 0 {
            return figures_at(number, p);
        }
        let t = one(sheet, own, mode, p, &mut stage, constants);
        let next = t.cursor;
        if t.done {
            return figures_at(t.number, next);
        }
        p = next;
    }
    figures_at(0, p)
}

// The same, from marks made by looking ahead: a sheet with labels needs a row for each, one without none.
fn run_marked(
    sheet: &[u8],
    own: usize,
    mode: Mode,
    start: CountCursor,
    constants: &mut [u64],
) -> Figures
    requires count_ready { CountReady (replicate 704 0) constants.old start }
    requires index_bound { start.index ≤ 612 }
    ensures { result ≡ left mode own sheet.now none_standing constants.old start }
{
    let mut marks = [0u8; 256];
    if find_labels(sheet, start.at, &mut marks) {
        let mut rows = [0u8; 24576];
        return run(sheet, own, mode, start, &mut marks, &mut rows, constants);
    }
    let mut none = [0u8; 1];
    run(sheet, own, mode, start, &mut marks, &mut none, constants)
}

pub fn shelf(sheet: &[u8]) -> Figures
    ensures { result ≡ Spec.shelf sheet.now }
{
    let Ok(setup) = read_setup(sheet) else {
        return refusal(8, 0);
    };
    let own = setup.count;
    let mut constants = [0u64; 256];
    put_constants(sheet, own, &mut constants);
    let places = setup.places;
    let low = Complexifier {
        real: Realness::fresh(places),
        root_defined: false,
    };
    let taken = Count {
        bytes: 0,
        records: 0,
        calls: 0,
        block: 0,
        branches: 0,
    };
    let start = CountCursor {
        at: setup.start,
        index: 0,
        constants: own,
        low: low,
        taken: taken,
    };
    let mode = setup.mode;
    run_marked(sheet, own, mode, start, &mut constants)
}
