// A list's bytes, and the report of its counts.
ghost use Rattle.std.specs.Prelude.{◌≡◌, length};
ghost use Rattle.replay.specs.Counts.{IsPrefixLen};

use crate::tally::Tally;
use std::io::{Print, Read};

// Room for a list. The length is all that its reader needs to know.
pub fn room() -> [u8; 524288]
    ensures { 524288 ≡ length result }
{
    [0; 524288]
}

// Reads until the slice is full, the input ends or a read fails; how many bytes came.
pub fn read_list<R: Read>(from: &mut R, buf: &mut [u8]) -> usize
    ensures { IsPrefixLen result buf.new }
{
    let mut done: usize = 0;
    while done < buf.len() {
        match from.read(&mut buf[done..]) {
            Ok(n) if n > 0 => done += n,
            _ => break,
        }
    }
    done
}

// Writes how many cases were answered with each number, how many cases, of that name, there are, and how many of them differ. Answers
// the last. Each part of a line is written by itself: where one cannot be written, which is told nowhere, the next is tried.
pub fn report<P: Print>(rt: &P, t: &Tally, name: &[u8]) -> u64
    ensures { result ≡ t.now.differ }
{
    for (number, cases) in t.by_number.iter().enumerate() {
        if *cases != 0 {
            let _ = print!(rt; "number ");
            let _ = print!(rt; "{number}");
            let _ = print!(rt; ": ");
            let _ = print!(rt; "{cases}");
            let _ = print!(rt; "\n");
        }
    }
    let _ = print!(rt; "{}", t.cases);
    let _ = rt.write_all(name);
    let _ = print!(rt; ", ");
    let _ = print!(rt; "{}", t.differ);
    let _ = print!(rt; " differ\n");
    t.differ
}
