// Reads records at the edges of the rules and writes a line for each: the kind that was read and where the next record begins, or the
// number that refuses it.
#![tactic(auto)]

use mir::records::{Instruction, Record, Work};
use records::reader::read_record;
use sheet::reader::read_instruction;
use sheet::setup::{constant_at, read_setup};
use std::io::Print;

// Each part of a line is written by itself: where one cannot be written, the next is tried.
fn text(rt: HostRuntime, s: &str) {
    let _ = rt.write_all(s.as_bytes());
}

fn number(rt: HostRuntime, before: &str, n: usize) {
    text(rt, before);
    let _ = print!(rt; "{n}");
}

// What was read, and where the next begins.
fn got(rt: HostRuntime, name: &str, next: usize) {
    text(rt, name);
    number(rt, ", next ", next);
    text(rt, "\n");
}

fn refused(rt: HostRuntime, n: u8) {
    number(rt, "refused ", usize::from(n));
    text(rt, "\n");
}

fn instruction_name(i: Instruction) -> &'static str {
    match i {
        Instruction::Nop => "Nop",
        Instruction::Uni { .. } => "Uni",
        Instruction::Bi { .. } => "Bi",
        Instruction::Mov { .. } => "Mov",
        Instruction::Load { .. } => "Load",
        Instruction::Save { .. } => "Save",
        Instruction::LoadConst { .. } => "LoadConst",
        Instruction::Fused { .. } => "Fused",
        Instruction::IfElse { .. } => "IfElse",
        Instruction::LoadMath { .. } => "LoadMath",
        Instruction::LoadConstMath { .. } => "LoadConstMath",
        Instruction::Label(_) => "Label",
        Instruction::Branch(_) => "Branch",
        Instruction::BranchIf { .. } => "BranchIf",
    }
}

fn work_name(w: Work) -> &'static str {
    match w {
        Work::Uni { .. } => "Uni",
        Work::Bi { .. } => "Bi",
        Work::Mov { .. } => "Mov",
        Work::Load { .. } => "Load",
        Work::Save { .. } => "Save",
        Work::LoadConst { .. } => "LoadConst",
        Work::Fused { .. } => "Fused",
        Work::IfElse { .. } => "IfElse",
        Work::LoadComplex { .. } => "LoadComplex",
        Work::SaveComplex { .. } => "SaveComplex",
        Work::ComplexBi { .. } => "ComplexBi",
    }
}

fn record_name(r: Record) -> &'static str {
    match r {
        Record::Work(w) => work_name(w),
        Record::Label(_) => "Label",
        Record::Branch(_) => "Branch",
        Record::Call(_) => "Call",
        Record::BranchIf { .. } => "BranchIf",
    }
}

// What a sheet with one constant holds at the start of bytes.
fn of_sheet(rt: HostRuntime, bytes: &[u8]) {
    match read_instruction(bytes, 0, 1) {
        Ok((i, n)) => got(rt, instruction_name(i), n),
        Err(refusal) => refused(rt, refusal.number()),
    }
}

// What a listing with a table of one constant holds at the start of bytes.
fn of_listing(rt: HostRuntime, bytes: &[u8]) {
    match read_record(bytes, 0, 1) {
        Ok((r, n)) => got(rt, record_name(r), n),
        Err(refusal) => refused(rt, refusal.number()),
    }
}

// What bytes are read as.
#[derive(Clone, Copy)]
enum Reader {
    Sheet,
    Listing,
}

impl Reader {
    fn name(self) -> &'static str {
        match self {
            Reader::Sheet => "sheet ",
            Reader::Listing => "listing ",
        }
    }

    fn kind(self) -> &'static str {
        match self {
            Reader::Sheet => "sheet kind ",
            Reader::Listing => "listing kind ",
        }
    }

    fn read(self, rt: HostRuntime, bytes: &[u8]) {
        match self {
            Reader::Sheet => of_sheet(rt, bytes),
            Reader::Listing => of_listing(rt, bytes),
        }
    }
}

// A record of a kind, its length as given, its fields zeros, and so many bytes of it.
fn sized(rt: HostRuntime, reader: Reader, kind: u8, length: u8, stand: u8) {
    let bytes = [length, 0, kind, 0, 0, 0, 0, 0, 0, 0, 0, 0];
    number(rt, reader.kind(), usize::from(kind));
    number(rt, ", length ", usize::from(length));
    number(rt, " in ", usize::from(stand));
    text(rt, " bytes: ");
    if let Some(part) = bytes.get(..usize::from(stand)) {
        reader.read(rt, part);
    }
}

// Each kind with its length, one byte short, one byte long, and with its last byte missing.
fn kinds(rt: HostRuntime, reader: Reader, lengths: &[(u8, u8)]) {
    for (kind, length) in lengths {
        let short = length.saturating_sub(1);
        let long = length.saturating_add(1);
        sized(rt, reader, *kind, *length, *length);
        sized(rt, reader, *kind, short, short);
        sized(rt, reader, *kind, long, long);
        sized(rt, reader, *kind, *length, short);
    }
}

// The kinds of a sheet, each with its length.
const SHEET_KINDS: [(u8, u8); 14] = [
    (0, 4),
    (1, 7),
    (2, 8),
    (3, 6),
    (4, 8),
    (5, 8),
    (6, 7),
    (7, 9),
    (8, 10),
    (9, 10),
    (10, 9),
    (14, 5),
    (15, 5),
    (17, 7),
];

// The kinds of a listing, each with its length.
const LISTING_KINDS: [(u8, u8); 15] = [
    (1, 7),
    (2, 8),
    (3, 6),
    (4, 8),
    (5, 8),
    (6, 7),
    (7, 9),
    (8, 10),
    (11, 9),
    (12, 9),
    (13, 11),
    (14, 5),
    (15, 5),
    (16, 5),
    (17, 7),
];

// What bytes are read as, how they are called, and the bytes.
type Case = (&'static [Reader], &'static str, &'static [u8]);

const SHEET: &[Reader] = &[Reader::Sheet];

const LISTING: &[Reader] = &[Reader::Listing];

const BOTH: &[Reader] = &[Reader::Sheet, Reader::Listing];

// Records that are cut, and lengths that are none.
const TAILS: [Case; 5] = [
    (BOTH, "tail of 1 byte", b"\x04"),
    (BOTH, "tail of 2 bytes", b"\x04\x00"),
    (BOTH, "tail of 3 bytes", b"\x04\x00\x03"),
    (BOTH, "length 3", b"\x03\x00\x03\x00\x00\x00"),
    (BOTH, "length 262", b"\x06\x01\x03\x00\x00\x00"),
];

// Kinds of the other table, and of none.
const OTHER_KINDS: [Case; 11] = [
    (SHEET, "kind 11", b"\x09\x00\x0b\x00\x00\x00\x00\x00\x00"),
    (LISTING, "kind 0", b"\x04\x00\x00\x00"),
    (
        LISTING,
        "kind 9",
        b"\x0a\x00\x09\x00\x00\x00\x00\x00\x00\x00",
    ),
    (LISTING, "kind 10", b"\x09\x00\x0a\x00\x00\x00\x00\x00\x00"),
    (SHEET, "kind 16", b"\x05\x00\x10\x00\x01"),
    (BOTH, "kind 18", b"\x05\x00\x12\x00\x00"),
    (BOTH, "kind 32", b"\x05\x00\x20\x00\x00"),
    (BOTH, "kind 33", b"\x05\x00\x21\x00\x00"),
    (BOTH, "kind 256", b"\x04\x00\x00\x01"),
    (BOTH, "kind 259", b"\x06\x00\x03\x01\x00\x00"),
    (BOTH, "kind 18 past the end", b"\x06\x00\x12\x00\x00"),
];

// Registers at the limits.
const REGISTERS: [Case; 7] = [
    (SHEET, "register 31", b"\x06\x00\x03\x00\x1f\x1f"),
    (SHEET, "register 32", b"\x06\x00\x03\x00\x20\x00"),
    (SHEET, "second register 32", b"\x06\x00\x03\x00\x00\x20"),
    (LISTING, "register 65", b"\x06\x00\x03\x00\x41\x41"),
    (LISTING, "register 66", b"\x06\x00\x03\x00\x42\x00"),
    (LISTING, "second register 66", b"\x06\x00\x03\x00\x00\x42"),
    (
        LISTING,
        "ComplexBi's last register 66",
        b"\x0b\x00\x0d\x00\x00\x00\x00\x00\x00\x00\x42",
    ),
];

// Places of each class, at the limits and where they may not be.
const PLACES: [Case; 9] = [
    (BOTH, "place Stack 255", b"\x08\x00\x04\x00\x00\x00\xff\x00"),
    (BOTH, "place Stack 256", b"\x08\x00\x04\x00\x00\x00\x00\x01"),
    (BOTH, "place Param 255", b"\x08\x00\x04\x00\x00\x02\xff\x00"),
    (
        BOTH,
        "place of class 3",
        b"\x08\x00\x04\x00\x00\x03\x00\x00",
    ),
    (BOTH, "save to Mem", b"\x08\x00\x05\x00\x00\x01\x00\x00"),
    (BOTH, "save to Param", b"\x08\x00\x05\x00\x00\x02\x00\x00"),
    (
        LISTING,
        "complex save to Param",
        b"\x09\x00\x0c\x00\x00\x00\x02\x00\x00",
    ),
    (
        BOTH,
        "condition on the stack",
        b"\x0a\x00\x08\x00\x00\x00\x00\x00\xff\x00",
    ),
    (
        BOTH,
        "condition in Mem",
        b"\x0a\x00\x08\x00\x00\x00\x00\x01\x00\x00",
    ),
];

// Operations at the limits.
const OPERATIONS: [Case; 10] = [
    (SHEET, "Uni RealRoot", b"\x07\x00\x01\x00\x04\x00\x00"),
    (LISTING, "Uni RealRoot", b"\x07\x00\x01\x00\x04\x00\x00"),
    (BOTH, "Uni Floor", b"\x07\x00\x01\x00\x07\x00\x00"),
    (SHEET, "Uni TimesNegI", b"\x07\x00\x01\x00\x13\x00\x00"),
    (BOTH, "Uni 20", b"\x07\x00\x01\x00\x14\x00\x00"),
    (BOTH, "Bi Equal", b"\x08\x00\x02\x00\x08\x00\x00\x00"),
    (BOTH, "Bi 15", b"\x08\x00\x02\x00\x0f\x00\x00\x00"),
    (
        BOTH,
        "Fused MulSub",
        b"\x09\x00\x07\x00\x01\x00\x00\x00\x00",
    ),
    (BOTH, "Fused 4", b"\x09\x00\x07\x00\x04\x00\x00\x00\x00"),
    (
        SHEET,
        "LoadMath 4",
        b"\x0a\x00\x09\x00\x04\x00\x00\x00\x00\x00",
    ),
];

// Labels and branches.
const LABELS: [Case; 11] = [
    (BOTH, "Label 2", b"\x05\x00\x0e\x00\x02"),
    (BOTH, "Label 3", b"\x05\x00\x0e\x00\x03"),
    (BOTH, "Label 255", b"\x05\x00\x0e\x00\xff"),
    (BOTH, "Branch 2", b"\x05\x00\x0f\x00\x02"),
    (BOTH, "Branch 3", b"\x05\x00\x0f\x00\x03"),
    (LISTING, "Call 3", b"\x05\x00\x10\x00\x03"),
    (BOTH, "BranchIf to 3", b"\x07\x00\x11\x00\x1f\x03\x01"),
    (BOTH, "BranchIf to 2", b"\x07\x00\x11\x00\x1f\x02\x00"),
    (BOTH, "BranchIf with 2", b"\x07\x00\x11\x00\x1f\x03\x02"),
    (
        BOTH,
        "BranchIf of register 66",
        b"\x07\x00\x11\x00\x42\x03\x01",
    ),
    (
        BOTH,
        "BranchIf of register 66 with 2",
        b"\x07\x00\x11\x00\x42\x03\x02",
    ),
];

// Of one constant, and where two rules are broken at once.
const CONSTANTS_AND_ORDER: [Case; 8] = [
    (BOTH, "constant 0 of 1", b"\x07\x00\x06\x00\x00\x00\x00"),
    (BOTH, "constant 1 of 1", b"\x07\x00\x06\x00\x00\x01\x00"),
    (BOTH, "constant 256 of 1", b"\x07\x00\x06\x00\x00\x00\x01"),
    (
        BOTH,
        "Uni 20 with register 66",
        b"\x07\x00\x01\x00\x14\x42\x42",
    ),
    (
        BOTH,
        "Load of register 66 from class 3",
        b"\x08\x00\x04\x00\x42\x03\x00\x00",
    ),
    (
        BOTH,
        "constant 1 of 1 to register 66",
        b"\x07\x00\x06\x00\x42\x01\x00",
    ),
    (
        SHEET,
        "LoadMath 4 with register 66 and class 3",
        b"\x0a\x00\x09\x00\x04\x42\x42\x03\x00\x00",
    ),
    (
        SHEET,
        "LoadConstMath of register 66 with constant 1 of 1",
        b"\x09\x00\x0a\x00\x00\x42\x00\x01\x00",
    ),
];

fn read_each(rt: HostRuntime, cases: &[Case]) {
    for (readers, name, bytes) in cases {
        for reader in *readers {
            text(rt, reader.name());
            text(rt, name);
            text(rt, ": ");
            reader.read(rt, bytes);
        }
    }
}

fn setup_of(rt: HostRuntime, name: &str, sheet: &[u8]) {
    text(rt, "setup ");
    text(rt, name);
    text(rt, ": ");
    let s = match read_setup(sheet) {
        Ok(s) => s,
        Err(refusal) => {
            refused(rt, refusal.number());
            return;
        }
    };
    let mode = s.mode;
    let minding = if mode.is_minding() { "minding, " } else { "" };
    let stable = if mode.is_stable() {
        "stable, "
    } else {
        "plain, "
    };
    text(rt, minding);
    number(rt, stable, s.count);
    number(rt, " constants, instructions at ", s.start);
    text(rt, "\n");
}

// The setup of the first so many bytes.
fn setup_in(rt: HostRuntime, name: &str, sheet: &[u8], stand: usize) {
    if let Some(part) = sheet.get(..stand) {
        setup_of(rt, name, part);
    }
}

fn header(length: u8, kind: u8, mode: u8) -> [u8; 69] {
    let mut s = [0u8; 69];
    s[0] = length;
    s[2] = kind;
    s[4] = mode;
    s
}

fn headers(rt: HostRuntime) {
    setup_of(rt, "plain", &header(69, 32, 0));
    setup_of(rt, "stable", &header(69, 32, 1));
    setup_of(rt, "minding", &header(69, 32, 2));
    setup_of(rt, "mode 3", &header(69, 32, 3));
    setup_of(rt, "kind 33", &header(69, 33, 0));
    setup_of(rt, "length 68", &header(68, 32, 0));
    setup_in(rt, "of 68 bytes", &header(69, 32, 0), 68);
}

// A header and one constant, of a length as given.
fn one_constant(length: u8) -> [u8; 81] {
    let mut s = [0u8; 81];
    s[0] = 69;
    s[2] = 32;
    s[69] = length;
    s[71] = 33;
    s
}

fn single_constants(rt: HostRuntime) {
    setup_of(rt, "constant of 12 bytes", &one_constant(12));
    setup_of(rt, "constant of 11 bytes", &one_constant(11));
    setup_of(rt, "constant of 13 bytes", &one_constant(13));
    setup_in(rt, "constant without its last byte", &one_constant(12), 80);
    setup_in(rt, "constant of which 4 bytes stand", &one_constant(12), 73);
    setup_in(rt, "constant of which 3 bytes stand", &one_constant(12), 72);
}

// A header and 252 constants, each with its index as its word.
fn many_constants() -> [u8; 3093] {
    let mut s = [0u8; 3093];
    s[0] = 69;
    s[2] = 32;
    for i in 0..252u8 {
        let at = 69 + 12 * usize::from(i);
        s[at] = 12;
        s[at + 2] = 33;
        s[at + 4] = i;
    }
    s
}

fn constant_of(rt: HostRuntime, name: &str, sheet: &[u8], i: usize) {
    let word = constant_at(sheet, i);
    let _ = print!(rt; "{name}: ");
    let _ = print!(rt; "{word}");
    text(rt, "\n");
}

fn many(rt: HostRuntime) {
    let s = many_constants();
    setup_in(rt, "251 constants", &s, 3081);
    setup_of(rt, "252 constants", &s);
    constant_of(rt, "constant 0", &s, 0);
    constant_of(rt, "constant 250", &s, 250);
    constant_of(rt, "constant 252, past the end", &s, 252);
}

fn long_sheets(rt: HostRuntime) {
    let mut s = [0u8; 16385];
    s[0] = 69;
    s[2] = 32;
    setup_in(rt, "of 16384 bytes", &s, 16384);
    setup_of(rt, "of 16385 bytes", &s);
}

fn main(rt: HostRuntime) {
    kinds(rt, Reader::Sheet, &SHEET_KINDS);
    kinds(rt, Reader::Listing, &LISTING_KINDS);
    read_each(rt, &TAILS);
    read_each(rt, &OTHER_KINDS);
    read_each(rt, &REGISTERS);
    read_each(rt, &PLACES);
    read_each(rt, &OPERATIONS);
    read_each(rt, &LABELS);
    read_each(rt, &CONSTANTS_AND_ORDER);
    headers(rt);
    single_constants(rt);
    many(rt);
    long_sheets(rt);
}
