// A word taken apart.
ghost use Rattle.std.specs.Prelude.{◌+◌, ◌-◌, ◌*◌, ◌%◌, ◌^◌, ◌<◌};
ghost use Rattle.float.specs.Unpacked.{Unpacked};

// m * 2^e, negative where neg is set.
#[derive(Clone, Copy)]
pub(crate) struct Parts {
    pub(crate) neg: bool,
    pub(crate) m: u64,
    pub(crate) e: i32,
}

// The parts of a word that is finite and not zero, with a significand of 53 binary digits: a subnormal's
// is shifted up by its leading zeros.
pub(crate) fn unpack(a: u64) -> Parts
    requires { (0 < a % 2 ^ 63) × (a % 2 ^ 63 < 2047 * 2 ^ 52) }
    ensures { Unpacked a result.neg result.m result.e }
{
    let neg = a >= 0x8000_0000_0000_0000;
    let x = (a >> 52) & 0x7ff;
    let t = a & 0x000f_ffff_ffff_ffff;
    if x == 0 {
        let z = u64::leading_zeros(t) - 11;
        Parts {
            neg: neg,
            m: t << z,
            e: -1074 - (z as i32),
        }
    } else {
        Parts {
            neg: neg,
            m: t + 0x0010_0000_0000_0000,
            e: (x as i32) - 1075,
        }
    }
}
