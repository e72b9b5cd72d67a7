// The entry of `shelf` as a C function.
#![tactic(auto)]

ghost use Rattle.std.specs.Prelude.{◌≡◌};
ghost use Rattle.shelf_call.specs.Call.{shelf_call};

use figures::entry::shelf;
use words::save;

// The figures of a sheet. The answer's 40 bytes: number, index, bytes, constants, records. Returns the number.
#[unsafe(no_mangle)]
pub extern "C" fn tulipcricket_shelf_unguarded(sheet: &[u8], answer: &mut [u8]) -> u32
    ensures { record { number = result; answer = answer.new } ≡ shelf_call sheet.now answer.old }
{
    if answer.len() != 40 {
        return 8;
    }
    let f = shelf(sheet);
    let numbers = [
        f.number as u64,
        f.index as u64,
        f.bytes as u64,
        f.constants as u64,
        f.records as u64,
    ];
    save(answer, &numbers);
    f.number as u32
}
