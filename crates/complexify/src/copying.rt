// Finished bytes, constants and origins, put into the lent slices.
ghost use Rattle.std.specs.Prelude.{◌≡◌, ◌+◌, ◌-◌, ◌≤◌, length, replicate};
ghost use Rattle.std.proofs.lemmas.List.Edits.{sets};
ghost use Rattle.words.specs.Bytes.{stored};
ghost use Rattle.sheet.specs.Setup.{constants_of};

use sheet::setup::constant_at;
use words::put;

// Bytes or words copied from `at` on.
pub(crate) fn copy<T: Copy>(from: &[T], to: &mut [T], at: usize)
    requires { at + length from.now ≤ length to.old }
    ensures { to.new ≡ sets to.old at from.now }
{
    put(to, at, from);
}

// The origin of the constants from a position up to another.
pub(crate) fn put_origins(origins: &mut [u16], start: usize, end: usize, origin: u16)
    requires start_le_end { start ≤ end }
    requires end_in_bounds { end ≤ length origins.old }
    ensures { origins.new ≡ sets origins.old start (replicate (end - start) origin) }
{
    origins[start..end].fill(origin);
}

// The sheet's first `count` constants.
pub(crate) fn copy_constants(sheet: &[u8], count: usize, constants: &mut [u64])
    requires { count ≤ length constants.old }
    ensures { constants.new ≡ sets constants.old 0 (constants_of sheet.now count) }
{
    for i in 0..count {
        constants[i] = constant_at(sheet, i);
    }
}

// The sheet's first `count` constants, where all of them have room.
pub fn put_constants(sheet: &[u8], count: usize, constants: &mut [u64])
    ensures { constants.new ≡ stored constants.old 0 (constants_of sheet.now count) }
{
    if count <= constants.len() {
        copy_constants(sheet, count, constants);
    }
}
