// The fields of a record, read from the bytes that begin with it. A byte past the end is read as 0.
ghost use Rattle.std.specs.Prelude.{◌≡◌, ◌+◌, ◌*◌, get_or};
ghost use Rattle.mir.specs.Read as Read;
ghost use Rattle.mir.specs.Refusal.{as_read};
ghost use Rattle.mir.specs.Field.{byte_at, bytes_at, u16_at, takes_kind, head_from, place_at, save_place, cond_place};

use super::lengths::length_of;
use super::records::Loc;
use super::refusal::Refusal;

pub fn byte(s: &[u8], i: usize) -> u8
    ensures { result ≡ byte_at s.now i }
{
    if i < s.len() { s[i] } else { 0 }
}

// Whether one of the n bytes from the i-th on is above the last register.
pub fn above(s: &[u8], i: u8, n: u8, last: u8) -> bool
    ensures { result ≡ Read.above last (bytes_at s.now i n) }
{
    let first = i as usize;
    for at in first..first + n as usize {
        if last < byte(s, at) {
            return true;
        }
    }
    false
}

// Two bytes, little-endian.
#[tactic(auto, unfolding(crate::specs::Field::u16_at))]
pub fn u16_at(s: &[u8], i: u8) -> u16
    ensures { result ≡ u16_at s.now i }
{
    let at = i as usize;
    let low = byte(s, at);
    let high = byte(s, at + 1);
    (low as u16) + 256 * (high as u16)
}

// Whether a listing, or a sheet, takes a kind.
#[tactic(auto, unfolding(crate::specs::Field::takes_kind, crate::specs::Field::among))]
pub fn takes_kind(in_listing: bool, kind: u16) -> bool
    ensures { result ≡ takes_kind in_listing kind }
{
    if in_listing {
        matches!(kind, 1..=8 | 11..=17)
    } else {
        matches!(kind, 0..=10 | 14..=15 | 17)
    }
}

// A record's kind. The tests come before a record's fields: a readable length, a kind that is taken, and that kind's length.
#[tactic(auto, unfolding(crate::specs::Field::head_from))]
pub fn read_head(s: &[u8], in_listing: bool) -> Result<u16, Refusal>
    ensures { as_read result ≡ head_from (takes_kind in_listing) s.now }
{
    if s.len() < 4 {
        return Err(Refusal::TornRecord);
    }
    let n = u16_at(s, 0);
    if n < 4 {
        return Err(Refusal::TornRecord);
    }
    if s.len() < n as usize {
        return Err(Refusal::TornRecord);
    }
    let kind = u16_at(s, 2);
    if !takes_kind(in_listing, kind) {
        return Err(Refusal::UnknownWork);
    }
    if length_of(kind) as u16 != n {
        return Err(Refusal::TornRecord);
    }
    Ok(kind)
}

// A place of any class.
#[tactic(auto, unfolding(crate::specs::Field::place_at, crate::specs::Field::u16_at))]
pub fn read_place(s: &[u8], i: u8) -> Result<Loc, Refusal>
    ensures { as_read result ≡ place_at s.now i }
{
    let at = i as usize;
    let class = byte(s, at);
    let low = byte(s, at + 1);
    let high = byte(s, at + 1 + 1);
    let index = (low as u16) + 256 * (high as u16);
    if 255 < index {
        return Err(Refusal::BadPlace);
    }
    match class {
        0 => Ok(Loc::Stack(index)),
        1 => Ok(Loc::Mem(index)),
        2 => Ok(Loc::Param(index)),
        _ => Err(Refusal::BadPlace),
    }
}

// A place that is saved to.
#[tactic(auto, unfolding(crate::specs::Field::save_place))]
pub fn read_save_place(s: &[u8], i: u8) -> Result<Loc, Refusal>
    ensures { as_read result ≡ save_place s.now i }
{
    let loc = read_place(s, i)?;
    match loc {
        Loc::Stack(_) | Loc::Mem(_) => Ok(loc),
        Loc::Param(_) => Err(Refusal::BadPlace),
    }
}

// The place of a condition.
#[tactic(auto, unfolding(crate::specs::Field::cond_place))]
pub fn read_cond_place(s: &[u8], i: u8) -> Result<Loc, Refusal>
    ensures { as_read result ≡ cond_place s.now i }
{
    let loc = read_place(s, i)?;
    match loc {
        Loc::Stack(_) => Ok(loc),
        Loc::Mem(_) | Loc::Param(_) => Err(Refusal::BadPlace),
    }
}
