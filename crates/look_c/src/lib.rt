// Looking for C. The export is the function of `look` by its name, with its clause.
#![tactic(auto)]

ghost use Rattle.std.specs.Prelude.{◌≡◌};
ghost use Rattle.look.specs.Call.{look_call};

// Looks at a record. The store is 12,816 bytes; the answer is 64: number, index, the record that follows, how many words, then index and
// bits of each, 0 where there is none. Returns the number.
#[unsafe(no_mangle)]
pub extern "C" fn tulipcricket_look_unguarded(
    listing: &[u8],
    constants: &[u8],
    store: &[u8],
    start: u64,
    answer: &mut [u8],
) -> u32
    ensures { record { number = result; answer = answer.new } ≡ look_call listing.now constants.now store.now start answer.old }
{
    look::call::tulipcricket_look_unguarded(listing, constants, store, start, answer)
}
