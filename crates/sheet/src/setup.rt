// What stands before a sheet's instructions: the header and the constants.
ghost use Rattle.std.specs.Prelude.{◌≡◌, ◌≤◌, length, take, drop};
ghost use Rattle.mir.specs.Refusal.{as_read};
ghost use Rattle.sheet.specs.Setup.{mode_from, is_stable, is_minding, header_from, is_constant, is_broken, constants_from, setup, constant_at, as_setup};

use mir::fields::{byte, u16_at};
use mir::refusal::Refusal;
use words::word_at;

// The most constants that a sheet may have.
const MOST_CONSTANTS: usize = 251;

// What a header's mode byte says.
#[derive(Clone, Copy, PartialEq, Eq, Debug)]
pub enum Mode {
    Plain,
    Stable,
    Minding,
}

impl Mode {
    // Whether a mode is stable.
    pub fn is_stable(self) -> bool
        ensures { result ≡ is_stable self }
    {
        matches!(self, Mode::Stable | Mode::Minding)
    }

    // Whether it is mode 2.
    pub fn is_minding(self) -> bool
        ensures { result ≡ is_minding self }
    {
        matches!(self, Mode::Minding)
    }
}

// `places` are the bytes of realness, and the instructions begin at `start`.
#[derive(Clone, Copy)]
pub struct Setup {
    pub mode: Mode,
    pub places: [u8; 64],
    pub count: usize,
    pub start: usize,
}

fn read_mode(b: u8) -> Result<Mode, Refusal>
    ensures { as_read result ≡ mode_from b }
{
    match b {
        0 => Ok(Mode::Plain),
        1 => Ok(Mode::Stable),
        2 => Ok(Mode::Minding),
        _ => Err(Refusal::WrongSetup),
    }
}

#[tactic(auto, unfolding(crate::specs::Setup::header_from))]
fn read_header(sheet: &[u8]) -> Result<Mode, Refusal>
    ensures { as_read result ≡ header_from sheet.now }
{
    if sheet.len() < 69 {
        return Err(Refusal::WrongSetup);
    }
    if u16_at(sheet, 0) != 69 {
        return Err(Refusal::WrongSetup);
    }
    if u16_at(sheet, 2) != 32 {
        return Err(Refusal::WrongSetup);
    }
    read_mode(byte(sheet, 4))
}

// Whether a constant stands first.
fn is_constant(s: &[u8]) -> bool
    ensures { result ≡ is_constant s.now }
{
    4 <= s.len() && u16_at(s, 2) == 33
}

// Whether the constant that stands first has another length than 12, or runs past the end.
fn is_broken(s: &[u8]) -> bool
    ensures { result ≡ is_broken s.now }
{
    u16_at(s, 0) != 12 || s.len() < 12
}

// The count of the constants that stand first.
fn count_constants(s: &[u8]) -> Result<usize, Refusal>
    ensures { as_read result ≡ constants_from 251 s.now }
{
    for n in 0..MOST_CONSTANTS {
        let part = &s[12 * n..];
        if !is_constant(part) {
            return Ok(n);
        }
        if is_broken(part) {
            return Err(Refusal::WrongSetup);
        }
    }
    if is_constant(&s[12 * MOST_CONSTANTS..]) {
        return Err(Refusal::WrongSetup);
    }
    Ok(MOST_CONSTANTS)
}

// The header's bytes of realness.
fn places_of(sheet: &[u8]) -> [u8; 64]
    requires { 69 ≤ length sheet.now }
    ensures { result ≡ take 64 (drop 5 sheet.now) }
{
    let mut places = [0u8; 64];
    places.copy_from_slice(&sheet[5..69]);
    places
}

// The setup of a whole sheet.
pub fn read_setup(sheet: &[u8]) -> Result<Setup, Refusal>
    ensures { as_setup result ≡ setup sheet.now }
{
    let mode = read_header(sheet)?;
    let count = count_constants(&sheet[69..])?;
    let places = places_of(sheet);
    Ok(Setup {
        mode,
        places,
        count,
        start: 69 + 12 * count,
    })
}

// The word of the constant with an index; 0 past the end.
pub fn constant_at(sheet: &[u8], i: usize) -> u64
    ensures { result ≡ constant_at sheet.now i }
{
    if sheet.len() < 73 {
        return 0;
    }
    if (sheet.len() - 73) / 12 < i {
        return 0;
    }
    word_at(sheet, 73 + 12 * i)
}
