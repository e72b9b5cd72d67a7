// Lowers a list of sheets, from standard input, through `complexify`. Writes how many cases were answered with each number, how many
// cases the list holds, and how many of them differ from the answer, the listing or the constants that the list expects.
// The list in `stdin` is `sheets` as oracle's `make-lists FOLDER 280 3` writes it (oracle/src/lists.rs has its form).
#![tactic(auto)]

mod case;

use case::Sheet;
use replay::report::{read_list, report, room};
use replay::tally::Tally;

// Reads the list, of at most 524,288 bytes.
fn main(rt: HostRuntime) {
    let mut t = Tally::new();
    let mut list = room();
    let n = read_list(&mut rt.stdin(), &mut list);
    if t.replay::<Sheet>(&list[..n]) {
        report(&rt, &t, b" sheets");
    } else {
        let _ = println!(rt; "the list is malformed");
    }
}
