// The figures of a sheet for C. The export is the function of `shelf_call` by its name, with its clause.
#![tactic(auto)]

ghost use Rattle.std.specs.Prelude.{◌≡◌};
ghost use Rattle.shelf_call.specs.Call.{shelf_call};

// The figures of a sheet. The answer's 40 bytes: number, index, bytes, constants, records. Returns the number.
#[unsafe(no_mangle)]
pub extern "C" fn tulipcricket_shelf_unguarded(sheet: &[u8], answer: &mut [u8]) -> u32
    ensures { record { number = result; answer = answer.new } ≡ shelf_call sheet.now answer.old }
{
    shelf_call::tulipcricket_shelf_unguarded(sheet, answer)
}
