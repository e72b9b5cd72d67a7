// The two entries for C. Each export is the function of `interface` by its name, with its clause.
#![tactic(auto)]

ghost use Rattle.std.specs.Prelude.{◌≡◌};
ghost use Rattle.interface.specs.Calls.{play_call, lower_call};

// Plays a listing from a record on. The store is 12,816 bytes; the answer is 24: number, index, records played. Returns the number.
#[unsafe(no_mangle)]
pub extern "C" fn tulipcricket_play_unguarded(
    listing: &[u8],
    constants: &[u8],
    store: &mut [u8],
    start: u64,
    answer: &mut [u8],
) -> u32
    ensures { record { number = result; store = store.new; answer = answer.new } ≡ play_call listing.now constants.now store.old start answer.old }
{
    interface::tulipcricket_play_unguarded(listing, constants, store, start, answer)
}

// Lowers a sheet. The constants are 2,048 bytes, the origins 512; the answer is 260: number, index, bytes written, count of constants, 32 flags of
// registers, 64 bytes of places, 66 flags of a listing's registers that are filled, and 66 of those drawn on before. Returns the number.
#[unsafe(no_mangle)]
pub extern "C" fn tulipcricket_lower_unguarded(
    sheet: &[u8],
    listing: &mut [u8],
    constants: &mut [u8],
    origins: &mut [u8],
    answer: &mut [u8],
) -> u32
    ensures { record { number = result; listing = listing.new; constants = constants.new; origins = origins.new; answer = answer.new } ≡ lower_call sheet.now listing.old constants.old origins.old answer.old }
{
    interface::tulipcricket_lower_unguarded(sheet, listing, constants, origins, answer)
}
