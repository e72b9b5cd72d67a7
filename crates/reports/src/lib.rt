// The lines that the commands print, each from its first byte to its line feed.
#![tactic(auto)]

ghost use Rattle.text.specs.Line.{Adds, Prints};
ghost use Rattle.reports.specs.Lines.{refusal_line, lowered_line, played_line, word_name, word_line, difference_line, more_text};

use text::line::{Line, empty_line};

// The refusals' words, by their numbers; a number that no line speaks of has none.
const REFUSALS: [&str; 15] = [
    "",
    "torn record",
    "unknown work",
    "bad register",
    "bad place",
    "missing constant",
    "barred operand",
    "listing full",
    "wrong setup",
    "stray jump",
    "misplaced label",
    "unequal records",
    "",
    "",
    "sheet too long",
];

pub fn refusal_line(number: u64, index: u64) -> Line
    ensures { Prints (refusal_line number index) result }
{
    empty_line()
        .text(b"refused")
        .number(number)
        .number(index)
        .byte(b' ')
        .name_in(&REFUSALS, number)
        .byte(b'\n')
}

// What lowering came to: its number and index, the bytes and constants of its listing.
pub fn lowered_line(number: u64, index: u64, bytes: u64, constants: u64) -> Line
    ensures { Prints (lowered_line number index bytes constants) result }
{
    if number != 0 {
        return refusal_line(number, index);
    }
    empty_line()
        .text(b"accepted")
        .number(index)
        .number(bytes)
        .number(constants)
        .byte(b'\n')
}

// What a play came to: its number and index, and how many records were played.
pub fn played_line(number: u64, index: u64, played: u64) -> Line
    ensures { Prints (played_line number index played) result }
{
    if number != 0 {
        return refusal_line(number, index);
    }
    empty_line()
        .text(b"played")
        .number(index)
        .number(played)
        .byte(b'\n')
}

// The name of a word of the store, by its index.
fn word_name(line: Line, index: u64) -> Line
    ensures { Adds line (word_name index) result }
{
    if index < 66 {
        return line.register(index as u8);
    }
    let k = index - 66;
    line.name_in(&["Stack", "Mem", "Param"], k / 512)
        .number(k % 512 / 2)
        .byte(b' ')
        .name_in(&["re", "im"], k % 2)
}

// A word of a store: its name and its bits.
pub fn word_line(index: u64, word: u64) -> Line
    ensures { Prints (word_line index word) result }
{
    word_name(empty_line(), index)
        .byte(b' ')
        .hex(word)
        .byte(b'\n')
}

// A word that differs: its name, then the word of either store.
pub fn difference_line(index: u64, one: u64, other: u64) -> Line
    ensures { Prints (difference_line index one other) result }
{
    word_name(empty_line(), index)
        .byte(b' ')
        .hex(one)
        .byte(b' ')
        .hex(other)
        .byte(b'\n')
}

// How many more there are.
pub fn more_line(n: u64) -> Line
    ensures { Prints (more_text n) result }
{
    empty_line().text(b"and").number(n).text(b" more\n")
}
