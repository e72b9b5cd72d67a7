// What lowering and playing gave, line by line.
use complexify::entry::LowerAnswer;
use lowering::realness::Realness;
use player::PlayAnswer;
use records::reader::read_record;
use std::io::Print;
use text::line::{Line, empty_line};
use text::lines::{constant_line, record_line};

// Each part of a line is written by itself: where one cannot be written, the next is tried.
fn text(rt: HostRuntime, s: &str) {
    let _ = rt.write_all(s.as_bytes());
}

fn number(rt: HostRuntime, before: &str, n: usize) {
    text(rt, before);
    let _ = print!(rt; "{n}");
}

fn line(rt: HostRuntime, line: Line) {
    let bytes = line.bytes;
    let _ = print!(rt; "  ");
    let _ = rt.write_all(text_of(&bytes, line.len));
}

// The first n bytes of a line, or all where there are fewer.
fn text_of(bytes: &[u8; 80], n: usize) -> &[u8] {
    bytes.get(..n).unwrap_or(bytes)
}

pub(crate) fn answer(rt: HostRuntime, name: &str, a: LowerAnswer) {
    text(rt, name);
    number(rt, ": number ", usize::from(a.number));
    number(rt, ", index ", a.index);
    number(rt, ", bytes ", a.written);
    number(rt, ", constants ", a.count);
    text(rt, "\n");
}

// The constants from one index to another.
pub(crate) fn constants(rt: HostRuntime, table: &[u64], from: usize, to: usize) {
    for i in from..to {
        if let Some(word) = table.get(i) {
            line(rt, constant_line(i as u64, *word));
        }
    }
}

// The registers recorded as real, by their numbers in a sheet.
pub(crate) fn real(rt: HostRuntime, r: Realness) {
    for (i, real) in r.regs.iter().enumerate() {
        if *real {
            number(rt, "  real ", i);
            text(rt, "\n");
        }
    }
}

// The listing's registers whose marks are set, on one line.
pub(crate) fn marks(rt: HostRuntime, before: &str, marks: [bool; 66]) {
    let _ = print!(rt; "  {before}");
    for (i, mark) in marks.iter().enumerate() {
        if *mark {
            let name = empty_line().byte(b' ').register(i as u8);
            let bytes = name.bytes;
            let _ = rt.write_all(text_of(&bytes, name.len));
        }
    }
    let _ = print!(rt; "\n");
}

// The record at a position, and where the next begins. There is none after one that is refused.
fn record(rt: HostRuntime, listing: &[u8], at: usize, count: usize) -> usize {
    match read_record(listing, at, count) {
        Ok((record, next)) => {
            line(rt, record_line(record));
            next
        }
        Err(refusal) => {
            number(rt, "  refused ", usize::from(refusal.number()));
            text(rt, "\n");
            listing.len()
        }
    }
}

// A listing's records. There are no more of them than bytes.
fn records(rt: HostRuntime, listing: &[u8], count: usize) {
    let mut at: usize = 0;
    for _ in 0..listing.len() {
        if at < listing.len() {
            at = record(rt, listing, at, count);
        }
    }
}

// The first so many bytes of a listing, record by record.
pub(crate) fn listing(rt: HostRuntime, listing: &[u8], written: usize, count: usize) {
    if let Some(part) = listing.get(..written) {
        records(rt, part, count);
    }
}

pub(crate) fn played(rt: HostRuntime, p: PlayAnswer) {
    number(rt, "  played: number ", usize::from(p.number));
    number(rt, ", index ", p.index);
    number(rt, ", records ", p.played);
    text(rt, "\n");
}

// The registers of a store from one to another, with their words.
pub(crate) fn registers(rt: HostRuntime, store: &[u64; 1602], from: usize, to: usize) {
    for i in from..to {
        if i < 66 {
            let word = store[i];
            line(
                rt,
                empty_line()
                    .register(i as u8)
                    .byte(b' ')
                    .hex(word)
                    .byte(b'\n'),
            );
        }
    }
}
