// show_store STORE: prints every word of a store, one a line, by its name and its bits.
#![tactic(auto)]

ghost use Rattle.std.specs.Prelude.{◌≤◌, length};
ghost use Rattle.text.specs.Puts.{Puts};
ghost use Rattle.show_store.specs.Shown.{shown};

use reports::word_line;
use text::put::put_line;
use words::word_at;

// The lines of all words.
fn put_words(out: &mut [u8], store: &[u8]) -> usize
    requires { 128160 ≤ length out.old }
    ensures { Puts out.old 0 (shown store.now) out.new result }
{
    let mut at: usize = 0;
    for i in 0..1602usize {
        let line = word_line(i as u64, word_at(store, 8 * i));
        at = put_line(out, at, line);
    }
    at
}

fn print_words(rt: HostRuntime, store: &[u8]) {
    let mut out = [0u8; 128160];
    let n = put_words(&mut out, store);
    files::print(rt, &out, n);
}

// One byte more than a store has is read, so that a longer file is none.
fn main(rt: HostRuntime) {
    if !files::usage(rt, files::arg_count(rt) == 2, b"show_store STORE") {
        return;
    }
    let mut store = [0u8; 12817];
    let Ok(n) = files::read_arg(rt, 1, &mut store) else {
        return;
    };
    if files::holds(rt, 1, n == 12816, b"not a store, which has 12816 bytes") {
        print_words(rt, &store[..n]);
    }
}
