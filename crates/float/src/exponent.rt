// Signed exponents. Each contract counts them from -8192 (`biased`), so that a caller has only natural numbers to reason with.
ghost use Rattle.std.specs.Prelude.{◌+◌, ◌-◌, ◌/◌, ◌%◌, ◌<◌, ◌≤◌, ◌≡◌, leb};
ghost use Rattle.std.specs.Int.Signed.{mag};
ghost use Rattle.float.specs.Biased.{biased};

// a + b.
pub(crate) fn sum(a: i32, b: i32) -> i32
    requires { (mag a < 4096) × (mag b < 4096) }
    ensures { (biased result + 8192 ≡ biased a + biased b) × (mag result < 8192) }
{
    a + b
}

// a - b, where b is not above a.
pub(crate) fn gap(a: i32, b: i32) -> u32
    requires { (mag a < 4096) × (mag b < 4096) × (biased b ≤ biased a) }
    ensures { biased a ≡ biased b + result }
{
    (a - b) as u32
}

pub(crate) fn not_above(a: i32, b: i32) -> bool
    requires { (mag a < 4096) × (mag b < 4096) }
    ensures { result ≡ leb (biased a) (biased b) }
{
    a <= b
}

// The lowest binary digit of e.
pub(crate) fn odd_digit(e: i32) -> u32
    requires { mag e < 8192 }
    ensures { result ≡ biased e % 2 }
{
    (e & 1) as u32
}

// The exponent's field of a root, less one. With g the half of e, downwards, the root of m * 2^52 counts 2^(g - 26), which is
// g + 1048 places above the smallest value's 2^-1074.
pub(crate) fn root_field(e: i32) -> u64
    requires { mag e < 1200 }
    ensures { result ≡ biased e / 2 - 3048 }
{
    let g = e >> 1;
    (g + 1048) as u64
}

// How many of a significand's digits stand below the point, for an exponent that is not above 0.
pub(crate) fn below_point(e: i32) -> u32
    requires { (mag e < 1200) × (biased e ≤ 8192) }
    ensures { result ≡ 8192 - biased e }
{
    (-e) as u32
}
