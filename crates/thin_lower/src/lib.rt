// The lowering entry with the realness record lent.
#![tactic(auto)]

ghost use Rattle.std.specs.Prelude.{◌≡◌};
ghost use Rattle.complexify.specs.Entry as Spec;
ghost use Rattle.thin_lower.specs.Numbers.{numbers_of, held_of};

use lowering::realness::Realness;

// The record of realness that lowering answers with: registers and places, and for each register of a listing whether it is filled.
#[derive(Clone, Copy)]
pub struct Held {
    pub real: Realness,
    pub filled: [bool; 66],
}

// What lowering gives back beside it: the number (0: accepted), an instruction's index, the bytes written, the count of constants, and for
// each register of a listing whether it is drawn on before being filled.
#[derive(Clone, Copy)]
pub struct Numbers {
    pub number: u8,
    pub index: usize,
    pub written: usize,
    pub count: usize,
    pub drawn: [bool; 66],
}

// Calls the core and stores the final record of realness.
pub fn lower(
    realness: &mut Held,
    sheet: &[u8],
    listing: &mut [u8],
    constants: &mut [u64],
    origins: &mut [u16],
) -> Numbers
    ensures { (result ≡ numbers_of (Spec.answer sheet.now listing.old constants.old origins.old))
        × (realness.new ≡ held_of (Spec.answer sheet.now listing.old constants.old origins.old))
        × (listing.new ≡ Spec.listing_after sheet.now listing.old constants.old origins.old)
        × (constants.new ≡ Spec.constants_after sheet.now listing.old constants.old origins.old)
        × (origins.new ≡ Spec.origins_after sheet.now listing.old constants.old origins.old) }
{
    let answer = complexify::entry::lower(sheet, listing, constants, origins);
    let filled = answer.filled;
    *realness = Held {
        real: answer.real,
        filled,
    };
    let drawn = answer.drawn;
    Numbers {
        number: answer.number,
        index: answer.index,
        written: answer.written,
        count: answer.count,
        drawn,
    }
}
