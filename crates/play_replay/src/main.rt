// Replays a list of plays, from standard input, through `player`. Writes how many cases were answered with each number, how many
// cases the list holds, and how many of them differ from the answer or the store that the list expects.
#![tactic(auto)]

mod case;
mod stores;

use case::Play;
use replay::report::{read_list, report, room};
use replay::tally::Tally;

// Reads the list, of at most 524,288 bytes.
fn main(rt: HostRuntime) {
    let mut t = Tally::new();
    let mut list = room();
    let n = read_list(&mut rt.stdin(), &mut list);
    if t.replay::<Play>(&list[..n]) {
        report(&rt, &t, b" plays");
    } else {
        let _ = println!(rt; "the list is malformed");
    }
}
