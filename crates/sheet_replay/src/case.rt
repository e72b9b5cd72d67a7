// One case: where it ends, and how lowering answers it.
ghost use Rattle.std.specs.Prelude.{◌^◌, ◌<◌, ◌≤◌, ◌≡◌, ◌++◌, map, length, refl};
ghost use Rattle.mir.specs.Encode.{flag_byte};
ghost use Rattle.complexify.specs.Entry as Entry;
ghost use Rattle.sheet_replay.specs.Case as Case;
ghost use Rattle.sheet_replay.specs.Case.{WholeSheet, Lent, lent_bytes, lent_words, lent_numbers, answered, differs, expected, numbers_agree, real_agrees, marks_agree, listing_expected, constants_expected};
ghost use Rattle.replay.proofs.Replaying.{is_whole};

use complexify::entry::{LowerAnswer, lower};
use lowering::bytes::{put_flags, record_bytes};
use lowering::realness::Realness;
use replay::cases::{Outcome, Replay, is_cut};
use replay::numbers::count_at;
use words::{load, put};

// Where the listing's bytes begin.
fn listing_at(s: &[u8]) -> usize
    ensures { (result ≡ Case.listing_at s.now) × (result < 2 ^ 33) }
{
    256 + count_at(s, 0)
}

// Where the constants begin.
fn constants_at(s: &[u8]) -> usize
    ensures { (result ≡ Case.constants_at s.now) × (result < 2 ^ 34) }
{
    listing_at(s) + count_at(s, 20)
}

// Where the case ends.
fn end(s: &[u8]) -> usize
    ensures { result ≡ Case.end s.now }
{
    constants_at(s) + 8 * count_at(s, 24)
}

// Whether number, index, bytes written and count of constants are the expected ones.
fn numbers_agree(s: &[u8], a: LowerAnswer) -> bool
    ensures { result ≡ numbers_agree s.now a }
{
    if a.number as usize != count_at(s, 12) {
        return false;
    }
    if a.index != count_at(s, 16) {
        return false;
    }
    if a.written != count_at(s, 20) {
        return false;
    }
    a.count == count_at(s, 24)
}

// Whether the registers and places recorded as real are the expected ones.
fn real_agrees(s: &[u8], real: Realness) -> bool
    requires { 256 ≤ length s.now }
    ensures { result ≡ real_agrees s.now «real» }
{
    let record = record_bytes(real);
    record[..] == s[28..124]
}

// The marks as bytes: of registers filled, then of those drawn on before.
fn mark_bytes(filled: [bool; 66], drawn: [bool; 66]) -> [u8; 132]
    ensures { result ≡ map flag_byte filled ++ map flag_byte drawn }
{
    let mut bytes = [0u8; 132];
    put_flags(&mut bytes, 0, &filled);
    put_flags(&mut bytes, 66, &drawn);
    bytes
}

// Whether the marks are the expected ones.
fn marks_agree(s: &[u8], a: LowerAnswer) -> bool
    requires { 256 ≤ length s.now }
    ensures { result ≡ marks_agree s.now a }
{
    let filled = a.filled;
    let drawn = a.drawn;
    let marks = mark_bytes(filled, drawn);
    marks[..] == s[124..256]
}

// Whether an answer and both slices are the expected ones.
fn agrees(
    s: &[u8],
    a: LowerAnswer,
    listing: &[u8],
    constants: &[u64],
    bytes: &[u8],
    words: &[u64],
) -> bool
    requires { (256 ≤ length s.now) × ((bytes.now ≡ listing_expected s.now) × (words.now ≡ constants_expected s.now)) }
    ensures { result ≡ expected s.now a listing.now constants.now }
{
    if !numbers_agree(s, a) {
        return false;
    }
    if !real_agrees(s, a.real) {
        return false;
    }
    if !marks_agree(s, a) {
        return false;
    }
    if listing != bytes {
        return false;
    }
    constants == words
}

// Lowers a sheet. A case says nothing of origins: 256 numbers are lent for them.
fn lower_case(sheet: &[u8], listing: &mut [u8], constants: &mut [u64]) -> LowerAnswer
    ensures { (result ≡ Entry.answer sheet.now listing.old constants.old lent_numbers)
        × (listing.new ≡ Entry.listing_after sheet.now listing.old constants.old lent_numbers)
        × (constants.new ≡ Entry.constants_after sheet.now listing.old constants.old lent_numbers) }
{
    let mut origins = [0u16; 256];
    lower(sheet, listing, constants, &mut origins)
}

// Lowers the case's sheet, and compares what lowering gives with what the case expects, which is made of the last two slices.
fn judge(
    s: &[u8],
    listing: &mut [u8],
    constants: &mut [u64],
    bytes: &mut [u8],
    words: &mut [u64],
) -> Outcome
    requires { WholeSheet s.now × (Lent s.now listing.old constants.old × Lent s.now bytes.old words.old) }
    ensures { (result.number ≡ (answered s.now).number) × (result.differs ≡ differs s.now) }
{
    let at = listing_at(s);
    let row = constants_at(s);
    let stop = end(s);
    put(bytes, 0, &s[at..row]);
    load(words, &s[row..stop]);
    let a = lower_case(&s[256..at], listing, constants);
    let agreed = agrees(s, a, listing, constants, bytes, words);
    Outcome {
        number: a.number,
        differs: !agreed,
    }
}

// The most bytes and words that a case lends.
fn all_bytes() -> [u8; 65537]
    ensures { (result ≡ lent_bytes 65537) × (65537 ≡ length result) }
{
    [0xa5; 65537]
}

fn all_words() -> [u64; 257]
    ensures { (result ≡ lent_words 257) × (257 ≡ length result) }
{
    [0xa5a5_a5a5_a5a5_a5a5; 257]
}

// Replays the case at the start of s.
fn replay_case(s: &[u8]) -> Outcome
    requires { WholeSheet s.now }
    ensures { (result.number ≡ (answered s.now).number) × (result.differs ≡ differs s.now) }
{
    let mut listing = all_bytes();
    let mut constants = all_words();
    let mut bytes = all_bytes();
    let mut words = all_words();
    let n = count_at(s, 4);
    let m = count_at(s, 8);
    judge(
        s,
        &mut listing[..n],
        &mut constants[..m],
        &mut bytes[..n],
        &mut words[..m],
    )
}

// The cases of a list of sheets.
pub struct Sheet;

impl Replay for Sheet {
    ghost cases = { Case.cases };

    fn end(s: &[u8]) -> usize {
        end(s)
    }

    fn is_cut(s: &[u8], end: usize) -> bool {
        is_cut(s, 256, 65537, 257, end)
    }

    fn replay(s: &[u8]) -> Outcome {
        replay_case(s)
    }

    ghost ends_inside = { λ s e. (is_whole 256 65537 257 (Case.end s) s refl refl e).rest };
}
