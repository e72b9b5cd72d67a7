// Lowers sheets at the limits of the rules, and the sheets of the misreadings that the rules name. Writes for each the answer, the
// constants that lowering added, the registers recorded as real, the listing's registers filled and those drawn on before, and the listing;
// for a misreading also registers after a play.
#![tactic(auto)]

mod print;
mod sheets;

use complexify::entry::{LowerAnswer, lower};
use player::play;
use sheets::{SheetBytes, header};

// Lowers a sheet that has so many constants of its own.
fn lowered(
    rt: HostRuntime,
    name: &str,
    sheet: &[u8],
    own: usize,
    listing: &mut [u8],
    constants: &mut [u64],
) -> LowerAnswer {
    let mut origins = [0u16; 256];
    let a = lower(sheet, listing, constants, &mut origins);
    print::answer(rt, name, a);
    print::constants(rt, constants, own, a.count);
    print::real(rt, a.real);
    let filled = a.filled;
    print::marks(rt, "filled", filled);
    let drawn = a.drawn;
    print::marks(rt, "drawn on", drawn);
    print::listing(rt, listing, a.written, a.count);
    a
}

fn limit(rt: HostRuntime, name: &str, sheet: SheetBytes, own: usize) {
    let mut listing = [0u8; 1024];
    let mut constants = [0u64; 256];
    lowered(
        rt,
        name,
        sheet.as_slice(),
        own,
        &mut listing,
        &mut constants,
    );
}

// A store whose first ten registers hold these words, and all else zeros.
fn store_of(first: &[u64; 10]) -> [u64; 1602] {
    let mut store = [0u64; 1602];
    words::put(&mut store, 0, first);
    store
}

// Lowers the sheet, plays its listing, and shows the registers from one to another.
fn misreading(
    rt: HostRuntime,
    name: &str,
    sheet: SheetBytes,
    own: usize,
    first: &[u64; 10],
    from: usize,
    to: usize,
) {
    let mut listing = [0u8; 1024];
    let mut constants = [0u64; 256];
    let a = lowered(
        rt,
        name,
        sheet.as_slice(),
        own,
        &mut listing,
        &mut constants,
    );
    let mut store = store_of(first);
    if let (Some(listing), Some(constants)) = (listing.get(..a.written), constants.get(..a.count)) {
        print::played(rt, play(listing, constants, &mut store, 0));
        print::registers(rt, &store, from, to);
    }
}

// The modes' bytes.
const PLAIN: u8 = 0;

const STABLE: u8 = 1;

const MINDING: u8 = 2;

// A Mov of 0 to 1, then the instruction that stands at a limit.
fn moved(mode: u8, constants: usize, instruction: &[u8]) -> SheetBytes {
    header(mode)
        .constants(constants)
        .records(b"\x06\x00\x03\x00\x01\x00")
        .records(instruction)
}

// Each case's name, its mode, how many constants it has, and the instruction that stands at a limit.
const LIMITS: [(&str, u8, usize, &[u8]); 19] = [
    ("Mov to register 31", PLAIN, 0, b"\x06\x00\x03\x00\x1f\x02"),
    ("Mov to register 32", PLAIN, 0, b"\x06\x00\x03\x00\x20\x02"),
    ("Mov of register 31", PLAIN, 0, b"\x06\x00\x03\x00\x02\x1f"),
    ("Mov of register 32", PLAIN, 0, b"\x06\x00\x03\x00\x02\x20"),
    (
        "Load of Stack 255",
        PLAIN,
        0,
        b"\x08\x00\x04\x00\x02\x00\xff\x00",
    ),
    (
        "Load of Stack 256",
        PLAIN,
        0,
        b"\x08\x00\x04\x00\x02\x00\x00\x01",
    ),
    (
        "Load of Mem 255",
        PLAIN,
        0,
        b"\x08\x00\x04\x00\x02\x01\xff\x00",
    ),
    (
        "Load of Mem 256",
        PLAIN,
        0,
        b"\x08\x00\x04\x00\x02\x01\x00\x01",
    ),
    (
        "Load of Param 255",
        PLAIN,
        0,
        b"\x08\x00\x04\x00\x02\x02\xff\x00",
    ),
    (
        "Load of Param 256",
        PLAIN,
        0,
        b"\x08\x00\x04\x00\x02\x02\x00\x01",
    ),
    (
        "Save to Stack 255",
        PLAIN,
        0,
        b"\x08\x00\x05\x00\x02\x00\xff\x00",
    ),
    (
        "Save to Stack 256",
        PLAIN,
        0,
        b"\x08\x00\x05\x00\x02\x00\x00\x01",
    ),
    (
        "251 constants, the last loaded",
        PLAIN,
        251,
        b"\x07\x00\x06\x00\x02\xfa\x00",
    ),
    (
        "251 constants, one past the last loaded",
        PLAIN,
        251,
        b"\x07\x00\x06\x00\x02\xfb\x00",
    ),
    ("252 constants", PLAIN, 252, b"\x07\x00\x06\x00\x02\xfa\x00"),
    (
        "251 constants, stable Abs",
        STABLE,
        251,
        b"\x07\x00\x01\x00\x02\x02\x03",
    ),
    (
        "252 constants, stable Abs",
        STABLE,
        252,
        b"\x07\x00\x01\x00\x02\x02\x03",
    ),
    (
        "stable Divide by Temp",
        STABLE,
        0,
        b"\x08\x00\x02\x00\x03\x02\x03\x1f",
    ),
    (
        "plain Divide by Temp",
        PLAIN,
        0,
        b"\x08\x00\x02\x00\x03\x02\x03\x1f",
    ),
];

fn limits(rt: HostRuntime) {
    for (name, mode, constants, instruction) in LIMITS {
        limit(rt, name, moved(mode, constants, instruction), constants);
    }
}

// Root of 0 to 1, then of 1 to 2, from 16.
fn second_root(rt: HostRuntime, name: &str, mode: u8) {
    let sheet = header(mode).records(b"\x07\x00\x01\x00\x03\x01\x00\x07\x00\x01\x00\x03\x02\x01");
    let first = [0, 0, 0, 0, 0x4030_0000_0000_0000, 0, 0, 0, 0, 0];
    misreading(rt, name, sheet, 0, &first, 6, 10);
}

// Divide of 0 by 1 to Temp, 6 over 2.
fn divide_to_temp(rt: HostRuntime, name: &str, mode: u8) {
    let sheet = header(mode).records(b"\x08\x00\x02\x00\x03\x1f\x00\x01");
    let first = [
        0,
        0,
        0,
        0,
        0x4018_0000_0000_0000,
        0,
        0x4000_0000_0000_0000,
        0,
        0,
        0,
    ];
    misreading(rt, name, sheet, 0, &first, 0, 2);
}

// LoadConst of 6 to Temp, then Divide of Temp by 1 to 2, where 1 is 2.
fn plain_divide_of_temp(rt: HostRuntime) {
    let sheet = header(PLAIN)
        .records(b"\x0c\x00\x21\x00\x00\x00\x00\x00\x00\x00\x18\x40")
        .records(b"\x07\x00\x06\x00\x1f\x00\x00")
        .records(b"\x08\x00\x02\x00\x03\x02\x1f\x01");
    let first = [0, 0, 0, 0, 0, 0, 0x4000_0000_0000_0000, 0, 0, 0];
    misreading(rt, "plain Divide of a real Temp", sheet, 1, &first, 8, 9);
}

// LoadConst of 2 to 0, then Half of 0 to 1 and of 1 to 0; the imaginary half of 0 is a leftover 4.
fn half(rt: HostRuntime, name: &str, mode: u8) {
    let sheet = header(mode)
        .constants(1)
        .records(b"\x07\x00\x06\x00\x00\x00\x00")
        .records(b"\x07\x00\x01\x00\x0d\x01\x00\x07\x00\x01\x00\x0d\x00\x01");
    let first = [0, 0, 0, 0, 0, 0x4010_0000_0000_0000, 0, 0, 0, 0];
    misreading(rt, name, sheet, 1, &first, 4, 8);
}

// Divide of Temp by 1 to 0: 6 and 8 over 1 and 2.
fn complex_divide(rt: HostRuntime) {
    let sheet = header(PLAIN).records(b"\x08\x00\x02\x00\x03\x00\x1f\x01");
    let first = [
        0x4018_0000_0000_0000,
        0x4020_0000_0000_0000,
        0,
        0,
        0,
        0,
        0x3ff0_0000_0000_0000,
        0x4000_0000_0000_0000,
        0,
        0,
    ];
    misreading(rt, "plain Divide of a complex Temp", sheet, 0, &first, 0, 8);
}

// Branch 3, Save of 0 to Mem 1, Label 3: the record after a Branch is taken as reached.
fn behind_a_branch(rt: HostRuntime) {
    let sheet = header(PLAIN)
        .records(b"\x05\x00\x0f\x00\x03")
        .records(b"\x08\x00\x05\x00\x00\x01\x01\x00")
        .records(b"\x05\x00\x0e\x00\x03");
    limit(rt, "a Save behind a Branch", sheet, 0);
}

fn main(rt: HostRuntime) {
    limits(rt);
    behind_a_branch(rt);
    second_root(rt, "a second Root, plain", PLAIN);
    second_root(rt, "a second Root, stable", STABLE);
    divide_to_temp(rt, "stable Divide to Temp", STABLE);
    divide_to_temp(rt, "Divide to Temp in mode 2", MINDING);
    plain_divide_of_temp(rt);
    half(
        rt,
        "Half of a real register to a complex one, and back",
        PLAIN,
    );
    half(rt, "the same in mode 2", MINDING);
    complex_divide(rt);
}
