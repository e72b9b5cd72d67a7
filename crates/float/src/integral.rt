// Rounding to a whole number: a word is taken apart, the digits below the point are rounded off, and the whole number
// is written as a word.
ghost use Rattle.std.specs.Prelude.{◌-◌, ◌*◌, ◌/◌, ◌%◌, ◌^◌, ◌<◌, ◌≤◌, ◌≡◌, cond};
ghost use Rattle.std.specs.Float.{binary64};
ghost use Rattle.std.specs.Float.Ieee.{to_bits};
ghost use Rattle.std.specs.Float.Ieee as Ieee;
ghost use Rattle.std.specs.Float.Ieee.Nearest.{closest};
ghost use Rattle.float.specs.Integral as Integral;
ghost use Rattle.float.specs.Word as Word;

use super::exponent::below_point;
use super::pack::{nearest, pack, sign_bit};
use super::parts::unpack;
use super::{INFINITY, QUIET, abs};

// The directions of IEEE 754: 4.3.1 roundTiesToEven; 4.3.2 roundTowardNegative, roundTowardPositive and roundTowardZero.
#[derive(Clone, Copy)]
pub(crate) enum Direction {
    TiesToEven,
    TowardNegative,
    TowardPositive,
    TowardZero,
}

// m / 2^t to the nearest whole number, a tie to the even one.
pub(crate) fn nearest_whole(m: u64, t: u32) -> u64
    requires { m < 2 ^ 53 }
    ensures { result ≡ closest m (2 ^ t) }
{
    if t == 0 {
        return m;
    }
    if t > 63 {
        return 0;
    }
    nearest(m, t)
}

// The whole part of m / 2^t.
pub(crate) fn whole_part(m: u64, t: u32) -> u64
    ensures { result ≡ m / 2 ^ t }
{
    if t > 63 { 0 } else { m >> t }
}

// m / 2^t to a whole number away from zero, or toward it.
pub(crate) fn directed(away: bool, m: u64, t: u32) -> u64
    requires { (0 < m) × (m < 2 ^ 53) }
    ensures { result ≡ cond away (Integral.ceiling m (2 ^ t)) (m / 2 ^ t) }
{
    if away {
        whole_part(m - 1, t) + 1
    } else {
        whole_part(m, t)
    }
}

// The size of the whole number that m / 2^t, with the sign neg, goes to.
pub(crate) fn whole(d: Direction, neg: bool, m: u64, t: u32) -> u64
    requires { (0 < m) × (m < 2 ^ 53) }
    ensures { result ≡ Integral.whole d neg m (2 ^ t) }
{
    match d {
        Direction::TiesToEven => nearest_whole(m, t),
        Direction::TowardNegative => directed(neg, m, t),
        Direction::TowardPositive => directed(!neg, m, t),
        Direction::TowardZero => directed(false, m, t),
    }
}

// The word of a whole number.
pub(crate) fn whole_word(neg: bool, n: u64) -> u64
    requires { n ≤ 2 ^ 53 }
    ensures { result ≡ to_bits binary64 (Ieee.round binary64 neg n 1) }
{
    if n == 0 {
        return sign_bit(neg);
    }
    let z = u64::leading_zeros(n) - 1;
    pack(neg, n << z, -(z as i32))
}

// Of a word that is not 0 and below 2^52 in size.
pub(crate) fn round_small(d: Direction, a: u64) -> u64
    requires { (0 < a % 2 ^ 63) × (a % 2 ^ 63 < 1075 * 2 ^ 52) }
    ensures { result ≡ Word.integral d a }
{
    let p = unpack(a);
    whole_word(p.neg, whole(d, p.neg, p.m, below_point(p.e)))
}

// The whole number that a goes to; a NaN keeps its mark. From 2^52 up every value is a whole number.
pub(crate) fn round_to_integral(d: Direction, a: u64) -> u64
    ensures { result ≡ Word.integral d a }
{
    let size = abs(a);
    if size > INFINITY {
        return a | QUIET;
    }
    if size >= 0x4330_0000_0000_0000 {
        return a;
    }
    if size == 0 {
        return a;
    }
    round_small(d, a)
}
