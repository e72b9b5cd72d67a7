// The two entries as C functions. Words go in and out as eight bytes each, the lowest first.
#![tactic(auto)]

ghost use Rattle.std.specs.Prelude.{◌≡◌, [], ◌∷◌, map, ◌*◌, ◌≤◌, length};
ghost use Rattle.std.proofs.lemmas.List.Edits.{sets};
ghost use Rattle.mir.specs.Encode.{flag_byte};
ghost use Rattle.player_machine.specs.Answer.{answer};
ghost use Rattle.player.specs.Values.{whole};
ghost use Rattle.complexify.specs.Entry as Entry;
ghost use Rattle.words.specs.Bytes.{bytes_of, words_of, stored};
ghost use Rattle.interface.specs.Calls.{play_call, lower_call, lower_answer, pairs_of, unnamed, origins_over};

use complexify::entry::{LowerAnswer, wrong_setup};
use lowering::bytes::{put_flags, record_bytes};
use player::PlayAnswer;
use words::{load, put, save};

// Plays on words, with constants as bytes.
fn play_words(listing: &[u8], constants: &[u8], store: &mut [u64], start: usize) -> PlayAnswer
    ensures { whole result store.new ≡ answer listing.now (words_of constants.now) start store.old }
{
    let n = constants.len() / 8;
    if 256 < n {
        return PlayAnswer {
            number: 8,
            index: 0,
            played: 0,
        };
    }
    let mut table = [0u64; 256];
    load(&mut table, constants);
    player::play(listing, &table[..n], store, start)
}

// The answer of a play that is refused by 8, and 8.
fn refuse_play(answer: &mut [u8]) -> u32
    ensures { (result ≡ 8) × (answer.new ≡ stored answer.old 0 (bytes_of (8 ∷ 0 ∷ 0 ∷ []))) }
{
    let refused = [8u64, 0, 0];
    save(answer, &refused);
    8
}

// Plays a listing from a record on. The store is 12,816 bytes; the answer is 24: number, index, records played. Returns the number.
#[unsafe(no_mangle)]
pub extern "C" fn tulipcricket_play_unguarded(
    listing: &[u8],
    constants: &[u8],
    store: &mut [u8],
    start: u64,
    answer: &mut [u8],
) -> u32
    ensures { record { number = result; store = store.new; answer = answer.new } ≡ play_call listing.now constants.now store.old start answer.old }
{
    if answer.len() != 24 {
        return 8;
    }
    if constants.len() % 8 != 0 {
        return refuse_play(answer);
    }
    if store.len() != 12816 {
        return refuse_play(answer);
    }
    let mut words = [0u64; 1602];
    load(&mut words, store);
    let a = play_words(listing, constants, &mut words, start as usize);
    save(store, &words);
    let numbers = [a.number as u64, a.index as u64, a.played as u64];
    save(answer, &numbers);
    a.number as u32
}

// The marks of registers filled, and of those drawn on before, behind the record of realness.
fn put_marks(out: &mut [u8], filled: [bool; 66], drawn: [bool; 66])
    ensures { (out.new ≡ stored (stored out.old 128 (map flag_byte filled)) 194 (map flag_byte drawn))
        × (length filled ≡ 66)
        × (length drawn ≡ 66) }
{
    put_flags(out, 128, &filled);
    put_flags(out, 194, &drawn);
}

// The answer of lowering, as 260 bytes.
fn put_answer(out: &mut [u8], a: LowerAnswer)
    requires { length out.old ≡ 260 }
    ensures { out.new ≡ lower_answer a }
{
    let numbers = [
        a.number as u64,
        a.index as u64,
        a.written as u64,
        a.count as u64,
    ];
    save(out, &numbers);
    let record = record_bytes(a.real);
    put(out, 32, &record);
    let filled = a.filled;
    let drawn = a.drawn;
    put_marks(out, filled, drawn);
}

// Numbers as two bytes each, the lower first.
fn put_numbers(out: &mut [u8], numbers: &[u16])
    requires { 2 * length numbers.now ≤ length out.old }
    ensures { out.new ≡ sets out.old 0 (pairs_of numbers.now) }
{
    for (i, n) in numbers.iter().enumerate() {
        out[2 * i] = (*n % 256) as u8;
        out[2 * i + 1] = (*n / 256 % 256) as u8;
    }
}

// Lowers with the constants and the origins as bytes. Lowering reads no word that it has not written, so none is read from the bytes.
fn lower_words(
    sheet: &[u8],
    listing: &mut [u8],
    constants: &mut [u8],
    origins: &mut [u8],
) -> LowerAnswer
    requires constants_len { length constants.old ≡ 2048 }
    requires origins_len { length origins.old ≡ 512 }
    ensures { (result ≡ Entry.answer sheet.now listing.old (words_of constants.old) unnamed)
        × (listing.new ≡ Entry.listing_after sheet.now listing.old (words_of constants.old) unnamed)
        × (constants.new ≡ bytes_of (Entry.constants_after sheet.now listing.old (words_of constants.old) unnamed))
        × (origins.new ≡ origins_over sheet.now listing.old (words_of constants.old) origins.old) }
{
    let mut words = [0u64; 256];
    let mut numbers = [0u16; 256];
    let a = complexify::entry::lower(sheet, listing, &mut words, &mut numbers);
    let count = a.count;
    save(constants, &words[..count]);
    put_numbers(origins, &numbers[..count]);
    a
}

// Lowers a sheet. The constants are 2,048 bytes, the origins 512; the answer is 260: number, index, bytes written, count of constants, 32 flags of
// registers, 64 bytes of places, 66 flags of a listing's registers that are filled, and 66 of those drawn on before. Returns the number.
#[unsafe(no_mangle)]
pub extern "C" fn tulipcricket_lower_unguarded(
    sheet: &[u8],
    listing: &mut [u8],
    constants: &mut [u8],
    origins: &mut [u8],
    answer: &mut [u8],
) -> u32
    ensures { record { number = result; listing = listing.new; constants = constants.new; origins = origins.new; answer = answer.new } ≡ lower_call sheet.now listing.old constants.old origins.old answer.old }
{
    if answer.len() != 260 {
        return 8;
    }
    if constants.len() != 2048 {
        put_answer(answer, wrong_setup());
        return 8;
    }
    if origins.len() != 512 {
        put_answer(answer, wrong_setup());
        return 8;
    }
    let a = lower_words(sheet, listing, constants, origins);
    put_answer(answer, a);
    a.number as u32
}
