// The pages for C. The export is the function of `pages` by its name, with its clause.
#![tactic(auto)]

ghost use Rattle.std.specs.Prelude.{◌≡◌};
ghost use Rattle.pages.specs.Call.{pages_call};

// Lays a listing and its constants out on pages. The answer is 24 bytes: number, index, count of pages. Returns the number.
#[unsafe(no_mangle)]
pub extern "C" fn tulipcricket_pages_unguarded(
    listing: &[u8],
    constants: &[u8],
    pages: &mut [u8],
    answer: &mut [u8],
) -> u32
    ensures { record { number = result; pages = pages.new; answer = answer.new } ≡ pages_call listing.now constants.now pages.old answer.old }
{
    pages::call::tulipcricket_pages_unguarded(listing, constants, pages, answer)
}
