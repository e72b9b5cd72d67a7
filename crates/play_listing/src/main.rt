// play_listing LISTING CONSTANTS STORE AFTER [START]: plays a listing on a store from a record on, makes the file of the store after it,
// and says what came of it. On a refusal no file is made.
#![tactic(auto)]

ghost use Rattle.text.specs.Line.{Prints};
ghost use Rattle.interface.specs.Calls.{play_call};
ghost use Rattle.play_listing.specs.Plays.{answer_line, Plays};

use files::start::start_of;
use interface::tulipcricket_play_unguarded;
use reports::played_line;
use text::line::Line;
use words::word_at;

// The line for an answer of playing.
fn answer_line(answer: &[u8]) -> Line
    ensures { Prints (answer_line answer.now) result }
{
    played_line(word_at(answer, 0), word_at(answer, 8), word_at(answer, 16))
}

// Plays on the lent bytes, and gives the line for what came of it.
fn play_bytes(
    listing: &[u8],
    constants: &[u8],
    store: &mut [u8],
    start: u64,
    answer: &mut [u8],
) -> Line
    ensures { Plays (play_call listing.now constants.now store.old start answer.old) store.new answer.new result }
{
    tulipcricket_play_unguarded(listing, constants, store, start, answer);
    answer_line(answer)
}

fn print(rt: HostRuntime, line: Line) {
    let bytes = line.bytes;
    files::print(rt, &bytes, line.len);
}

fn play(rt: HostRuntime, listing: &[u8], constants: &[u8], store: &mut [u8], start: u64) {
    let mut answer = [0u8; 24];
    let line = play_bytes(listing, constants, store, start, &mut answer);
    if word_at(&answer, 0) == 0 && files::make_arg(rt, 4, store, store.len()).is_none() {
        return;
    }
    print(rt, line);
}

// Of each file one byte more is read than it can have, so that a longer one is refused and not cut.
fn play_on_store(rt: HostRuntime, listing: &[u8], constants: &[u8], start: u64) {
    let mut store = [0u8; 12817];
    if let Ok(n) = files::read_arg(rt, 3, &mut store) {
        play(rt, listing, constants, &mut store[..n], start);
    }
}

fn play_with_constants(rt: HostRuntime, listing: &[u8], start: u64) {
    let mut constants = [0u8; 2049];
    if let Ok(n) = files::read_arg(rt, 2, &mut constants) {
        play_on_store(rt, listing, &constants[..n], start);
    }
}

fn play_from(rt: HostRuntime, start: u64) {
    let mut listing = [0u8; 65537];
    if let Ok(n) = files::read_arg(rt, 1, &mut listing) {
        play_with_constants(rt, &listing[..n], start);
    }
}

fn play_from_argument(rt: HostRuntime) {
    let mut text = [0u8; 32];
    let n = files::arg(rt, 5, &mut text);
    let Some(start) = start_of(&text[..n]) else {
        files::holds(
            rt,
            5,
            false,
            b"no record's index, which is 0 to 18446744073709551615",
        );
        return;
    };
    play_from(rt, start);
}

fn main(rt: HostRuntime) {
    match files::arg_count(rt) {
        5 => play_from(rt, 0),
        6 => play_from_argument(rt),
        _ => {
            files::usage(
                rt,
                false,
                b"play_listing LISTING CONSTANTS STORE AFTER [START]",
            );
        }
    }
}
