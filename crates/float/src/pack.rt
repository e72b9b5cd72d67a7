// Rounding a significand to a word.
ghost use Rattle.std.specs.Prelude.{◌≡◌, cond, ◌+◌, ◌-◌, ◌*◌, ◌%◌, ◌^◌, ◌<◌, ◌≤◌};
ghost use Rattle.std.specs.Int.Signed.{mag};
ghost use Rattle.std.specs.Float.{binary64};
ghost use Rattle.std.specs.Float.Ieee.{to_bits, up, down};
ghost use Rattle.std.specs.Float.Ieee as Ieee;
ghost use Rattle.std.specs.Float.Ieee.Nearest.{closest};

// The sign's bit alone.
pub(crate) fn sign_bit(neg: bool) -> u64
    ensures { result ≡ cond neg (2 ^ 63) 0 }
{
    if neg { 0x8000_0000_0000_0000 } else { 0 }
}

// 2^t.
pub(crate) fn pow2(t: u32) -> u64
    requires { t < 64 }
    ensures { result ≡ 2 ^ t }
{
    1u64 << t
}

// The t lowest binary digits of w.
pub(crate) fn low_digits(w: u64, t: u32) -> u64
    requires { t < 64 }
    ensures { result ≡ w % 2 ^ t }
{
    w & (pow2(t) - 1)
}

// w / 2^t to the nearest whole number, a tie to the even one.
pub(crate) fn nearest(w: u64, t: u32) -> u64
    requires { (w < 2 ^ 63) × (0 < t) × (t < 64) }
    ensures { result ≡ closest w (2 ^ t) }
{
    let unit = pow2(t);
    let q = w >> t;
    let rest = low_digits(w, t);
    let left = unit - rest;
    if rest < left {
        q
    } else if left < rest {
        q + 1
    } else {
        q + q % 2
    }
}

// The word of w * 2^e, rounded once. w has 63 binary digits, of which the format keeps 53, so that the last one kept counts
// 2^(e + 10), or 2^-1074 where that is larger. The word is a sum: a significand rounded up to 2^53 adds one to the exponent's
// field. Above 961 the value is 2^1024 or more; below -1137 it is less than half the smallest value.
pub(crate) fn pack(neg: bool, w: u64, e: i32) -> u64
    requires { (2 ^ 62 ≤ w) × (w < 2 ^ 63) × (mag e < 8192) }
    ensures { result ≡ to_bits binary64 (Ieee.round binary64 neg (w * up e) (down e)) }
{
    let s = sign_bit(neg);
    if e > 961 {
        return s + 0x7ff0_0000_0000_0000;
    }
    if e < -1137 {
        return s;
    }
    if e < -1084 {
        return s + nearest(w, (-1074 - e) as u32);
    }
    s + (((e + 1084) as u64) << 52) + nearest(w, 10)
}
