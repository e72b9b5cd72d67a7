// Walks over the records of a listing, by position. The position of a record stands for the records from it on. The first pass examines
// each record; the others read the length, the kind and the fields of records that were examined. A turn of a loop passes over a record,
// whose length differs: none is a `for`.
ghost use Rattle.std.specs.Prelude.{◌≡◌, cond, eqb};
ghost use Rattle.player_machine.specs.Machine.{is_label};
ghost use Rattle.player_machine.specs.Jumps.{bit, is_return};
ghost use Rattle.player.specs.Encoded.{jump_encoded, such};
ghost use Rattle.player.specs.Positions.{AtLabel, Behind, Examined, Sound, jump_seen, label_seen};

use mir::fields::{byte, u16_at};
use records::reader::{Step, read_step};

// Whether the record that bytes begin with is a Label of that number.
pub fn encodes_label(s: &[u8], label: u8) -> bool
    ensures { result ≡ such (is_label label) (jump_encoded s.now) }
{
    if u16_at(s, 2) == 14 {
        byte(s, 4) == label
    } else {
        false
    }
}

// Whether it is a Branch 0.
pub fn encodes_return(s: &[u8]) -> bool
    ensures { result ≡ such is_return (jump_encoded s.now) }
{
    if u16_at(s, 2) == 15 {
        byte(s, 4) == 0
    } else {
        false
    }
}

pub fn one_if(b: bool) -> usize
    ensures { result ≡ bit b }
{
    if b { 1 } else { 0 }
}

// The position of the first Label of that number at or behind a position; the end where there is none.
pub(crate) fn find(listing: &[u8], at: usize, label: u8) -> usize
    requires { Sound listing.now at }
    ensures { AtLabel listing.now at label result }
{
    let mut i = at;
    while i < listing.len() {
        let s = &listing[i..];
        if encodes_label(s, label) {
            return i;
        }
        let n = u16_at(s, 0);
        i += n as usize;
    }
    i
}

// The position k records behind a position; the end where there are fewer.
pub(crate) fn skip(listing: &[u8], from: usize, k: usize) -> usize
    requires { Sound listing.now from }
    ensures { Behind listing.now from k result }
{
    let mut at = from;
    let mut n = k;
    while at < listing.len() {
        if n == 0 {
            return at;
        }
        let s = &listing[at..];
        let length = u16_at(s, 0);
        at += length as usize;
        n -= 1;
    }
    at
}

// A Label, a Branch, a Call or a BranchIf.
fn jump_seen(step: Step) -> bool
    ensures { result ≡ jump_seen step }
{
    !matches!(step, Step::Work)
}

// A Label of that number.
fn label_seen(step: Step, label: u8) -> bool
    ensures { result ≡ label_seen label step }
{
    matches!(step, Step::Label(l) if l == label)
}

// Where the block begins: `next`, behind the Label 1 at hand, where none stood before.
fn block_start(body: usize, end: usize, label: bool, next: usize) -> usize
    ensures { result ≡ cond label (cond (eqb body end) next body) body }
{
    if label {
        if body == end {
            return next;
        }
    }
    body
}

// What the first pass finds: the number that refuses a record (0: none) at its index or the count of records, how many records are no
// working records, and the position behind the first Label 1, or the end where there is none.
#[derive(Clone, Copy)]
pub struct Examination {
    pub number: u8,
    pub index: usize,
    pub jumps: usize,
    pub body: usize,
}

// Examines each record by itself.
pub fn examine(listing: &[u8], count: usize) -> Examination
    ensures { Examined count listing.now result }
{
    let end = listing.len();
    let mut at: usize = 0;
    let mut index: usize = 0;
    let mut jumps: usize = 0;
    let mut body = end;
    while at < end {
        let s = &listing[at..];
        let step = match read_step(s, count) {
            Ok(step) => step,
            Err(refusal) => {
                return Examination {
                    number: refusal.number(),
                    index: index,
                    jumps: jumps,
                    body: body,
                };
            }
        };
        let n = u16_at(s, 0);
        at += n as usize;
        index += 1;
        jumps += one_if(jump_seen(step));
        body = block_start(body, end, label_seen(step, 1), at);
    }
    Examination {
        number: 0,
        index: index,
        jumps: jumps,
        body: body,
    }
}
