// The entry as a C function. Words go in and out as eight bytes each, the lowest first.
ghost use Rattle.std.specs.Prelude.{◌≡◌};
ghost use Rattle.words.specs.Bytes.{bytes_of, words_of, stored};
ghost use Rattle.player_machine.specs.Look as Machine;
ghost use Rattle.look.specs.Numbers.{told};
ghost use Rattle.look.specs.Call.{look_call, numbers};

use super::{LookAnswer, look, unshown};
use words::{load, save};

// Looks with constants as bytes.
fn look_words(listing: &[u8], constants: &[u8], store: &[u64], start: usize) -> LookAnswer
    ensures { result ≡ told (Machine.look listing.now (words_of constants.now) store.now start) }
{
    let n = constants.len() / 8;
    if 256 < n {
        return unshown(8, 0, 0);
    }
    let mut table = [0u64; 256];
    load(&mut table, constants);
    look(listing, &table[..n], store, start)
}

// The eight numbers of an answer.
fn numbers_of(a: LookAnswer) -> [u64; 8]
    ensures { result ≡ numbers a }
{
    [
        a.number as u64,
        a.index as u64,
        a.follows as u64,
        a.count as u64,
        a.index1 as u64,
        a.bits1,
        a.index2 as u64,
        a.bits2,
    ]
}

// The answer's bytes, and its number.
fn tell(answer: &mut [u8], a: LookAnswer) -> u32
    ensures { (result ≡ a.number) × (answer.new ≡ stored answer.old 0 (bytes_of (numbers a))) }
{
    let told = numbers_of(a);
    save(answer, &told);
    a.number as u32
}

// Looks at a record. The store is 12,816 bytes; the answer is 64: number, index, the record that follows, how many words, then index and
// bits of each, 0 where there is none. Returns the number.
#[unsafe(no_mangle)]
pub extern "C" fn tulipcricket_look_unguarded(
    listing: &[u8],
    constants: &[u8],
    store: &[u8],
    start: u64,
    answer: &mut [u8],
) -> u32
    ensures { record { number = result; answer = answer.new } ≡ look_call listing.now constants.now store.now start answer.old }
{
    if answer.len() != 64 {
        return 8;
    }
    if constants.len() % 8 != 0 {
        return tell(answer, unshown(8, 0, 0));
    }
    if store.len() != 12816 {
        return tell(answer, unshown(8, 0, 0));
    }
    let mut words = [0u64; 1602];
    load(&mut words, store);
    let a = look_words(listing, constants, &words, start as usize);
    tell(answer, a)
}
