// Laying out with constants as bytes, and as a C function. Words go in and out as eight bytes each, the lowest first.
ghost use Rattle.std.specs.Prelude.{◌≡◌};
ghost use Rattle.pages.specs.Call.{part_of, pages_call};
ghost use Rattle.pages.specs.Values.{whole};

use super::{PagesAnswer, part, refuse};
use words::{load, save};

// Lays out at most `most` pages from page `first` on.
pub fn part_of(
    listing: &[u8],
    constants: &[u8],
    first: usize,
    most: usize,
    out: &mut [u8],
) -> PagesAnswer
    ensures { whole result out.new ≡ part_of first most listing.now constants.now out.old }
{
    if constants.len() % 8 != 0 {
        return refuse(8, 0);
    }
    let n = constants.len() / 8;
    if 256 < n {
        return refuse(8, 0);
    }
    let mut table = [0u64; 256];
    load(&mut table, constants);
    part(listing, &table[..n], first, most, out)
}

// Lays a listing and its constants out on pages. The answer is 24 bytes: number, index, count of pages. Returns the number.
#[unsafe(no_mangle)]
pub extern "C" fn tulipcricket_pages_unguarded(
    listing: &[u8],
    constants: &[u8],
    pages: &mut [u8],
    answer: &mut [u8],
) -> u32
    ensures { record { number = result; pages = pages.new; answer = answer.new } ≡ pages_call listing.now constants.now pages.old answer.old }
{
    if answer.len() != 24 {
        return 8;
    }
    let a = part_of(listing, constants, 0, 65536, pages);
    let numbers = [a.number as u64, a.index as u64, a.pages as u64];
    save(answer, &numbers);
    a.number as u32
}
