// The lowering entry.
ghost use Rattle.std.specs.Prelude.{◌≡◌, ◌<◌, ◌≤◌, List, length, take, drop, replicate};
ghost use Rattle.mir.specs.declared.records.Record.{Record};
ghost use Rattle.mir.specs.Encode.{encode_all};
ghost use Rattle.lowering.specs.Labels.{none_standing};
ghost use Rattle.complexify.specs.Entry as Spec;
ghost use Rattle.refusals.specs.Noted.{Noted};
ghost use Rattle.complexify.specs.Taken.{Ready, Ran, Dated, left, stopped_at, with_marks};

use super::copying::{copy_constants, put_origins};
use super::turn::{Cursor, Stop, one};
use complexifier::state::Complexifier;
use lowering::realness::Realness;
use marks_pass::marks_of;
use refusals::labels::{find_labels, pass_at};
use sheet::reader::LONGEST;
use sheet::setup::{Mode, read_setup};

// The origin of a constant that the sheet has.
pub const FROM_SHEET: u16 = 65535;

// The number (0: accepted), an instruction's index, the bytes written, the count of constants, and the final record of realness: registers
// and places, and which of a listing's registers are filled. Then which of them are drawn on before being filled.
#[derive(Clone, Copy)]
pub struct LowerAnswer {
    pub number: u8,
    pub index: usize,
    pub written: usize,
    pub count: usize,
    pub real: Realness,
    pub filled: [bool; 66],
    pub drawn: [bool; 66],
}

fn stop_at(number: u8, p: Cursor) -> Stop
    ensures { result ≡ stopped_at number p }
{
    let low = p.low;
    let real = low.real;
    Stop {
        number: number,
        index: p.index,
        written: p.written,
        count: p.count,
        real: real,
    }
}

// What a wrong setup gives.
pub fn wrong_setup() -> LowerAnswer
    ensures { result ≡ Spec.refused_setup }
{
    let places = [0u8; 64];
    LowerAnswer {
        number: 8,
        index: 0,
        written: 0,
        count: 0,
        real: Realness::fresh(places),
        filled: [false; 66],
        drawn: [false; 66],
    }
}

// The instructions from where lowering stands to the end of the sheet.
fn run(
    sheet: &[u8],
    own: usize,
    mode: Mode,
    start: Cursor,
    marks: &mut [u8],
    rows: &mut [u8],
    listing: &mut [u8],
    constants: &mut [u64],
    origins: &mut [u16],
) -> Stop
    requires ready { Ready (replicate 704 0) listing.old constants.old start }
    requires index_bound { start.index ≤ 612 }
    requires origins_len { length origins.old ≡ 256 }
    requires noted { Noted none_standing (drop start.at sheet.now) marks.old rows.old }
    ensures { (Ran (left mode (length listing.old) own sheet.now none_standing listing.old constants.old start) listing.old constants.old start listing.new constants.new result)
        × (Dated (left mode (length listing.old) own sheet.now none_standing listing.old constants.old start) mode own sheet.now constants.old start origins.old origins.new result) }
{
    let mut stage = [0u8; 704];
    // By position: a turn passes over an instruction, whose length differs.
    let mut p = start;
    while p.at < sheet.len() {
        if p.index == LONGEST {
            return stop_at(14, p);
        }
        let low = p.low;
        let real = low.real;
        let number = pass_at(sheet, p.at, real, marks, rows);
        if number != 0 {
            return stop_at(number, p);
        }
        let t = one(sheet, own, mode, p, &mut stage, listing, constants);
        let next = t.stand;
        if t.done {
            return stop_at(t.number, next);
        }
        put_origins(origins, p.count, next.count, p.index as u16);
        p = next;
    }
    stop_at(0, p)
}

// The same, from marks made by looking ahead: a sheet with labels needs a row for each, one without none.
fn run_marked(
    sheet: &[u8],
    own: usize,
    mode: Mode,
    start: Cursor,
    listing: &mut [u8],
    constants: &mut [u64],
    origins: &mut [u16],
) -> Stop
    requires ready { Ready (replicate 704 0) listing.old constants.old start }
    requires index_bound { start.index ≤ 612 }
    requires origins_len { length origins.old ≡ 256 }
    ensures { (Ran (left mode (length listing.old) own sheet.now none_standing listing.old constants.old start) listing.old constants.old start listing.new constants.new result)
        × (Dated (left mode (length listing.old) own sheet.now none_standing listing.old constants.old start) mode own sheet.now constants.old start origins.old origins.new result) }
{
    let mut marks = [0u8; 256];
    if find_labels(sheet, start.at, &mut marks) {
        let mut rows = [0u8; 24576];
        return run(
            sheet, own, mode, start, &mut marks, &mut rows, listing, constants, origins,
        );
    }
    let mut none = [0u8; 1];
    run(
        sheet, own, mode, start, &mut marks, &mut none, listing, constants, origins,
    )
}

// The answer of a stop, with the marks of what is listed.
fn marked(stop: Stop, listing: &[u8]) -> LowerAnswer
    requires { stop.written ≤ length listing.now }
    ensures { (rs : List Record) → take stop.written listing.now ≡ encode_all rs → result ≡ with_marks rs stop }
{
    let n = stop.written;
    let marks = marks_of(&listing[0..n]);
    let real = stop.real;
    let filled = marks.filled;
    let drawn = marks.drawn;
    LowerAnswer {
        number: stop.number,
        index: stop.index,
        written: n,
        count: stop.count,
        real: real,
        filled: filled,
        drawn: drawn,
    }
}

pub fn lower(
    sheet: &[u8],
    listing: &mut [u8],
    constants: &mut [u64],
    origins: &mut [u16],
) -> LowerAnswer
    ensures { (result ≡ Spec.answer sheet.now listing.old constants.old origins.old)
        × (listing.new ≡ Spec.listing_after sheet.now listing.old constants.old origins.old)
        × (constants.new ≡ Spec.constants_after sheet.now listing.old constants.old origins.old)
        × (origins.new ≡ Spec.origins_after sheet.now listing.old constants.old origins.old) }
{
    let Ok(setup) = read_setup(sheet) else {
        return wrong_setup();
    };
    if 65536 < listing.len() {
        return wrong_setup();
    }
    if constants.len() != 256 {
        return wrong_setup();
    }
    if origins.len() != 256 {
        return wrong_setup();
    }
    let own = setup.count;
    copy_constants(sheet, own, constants);
    put_origins(origins, 0, own, FROM_SHEET);
    let places = setup.places;
    let low = Complexifier {
        real: Realness::fresh(places),
        root_defined: false,
    };
    let start = Cursor {
        at: setup.start,
        index: 0,
        written: 0,
        count: own,
        low: low,
    };
    let mode = setup.mode;
    let stop = run_marked(sheet, own, mode, start, listing, constants, origins);
    marked(stop, listing)
}
