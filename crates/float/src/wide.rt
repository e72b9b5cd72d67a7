// Numbers of two words, and their rounding to a word.
ghost use Rattle.std.specs.Prelude.{◌≡◌, ◌+◌, ◌-◌, ◌*◌, ◌/◌, ◌%◌, ◌^◌, ◌<◌, ◌≤◌, ltb};
ghost use Rattle.std.specs.Int.Signed.{mag};
ghost use Rattle.std.specs.Float.{binary64};
ghost use Rattle.std.specs.Float.Ieee.{to_bits, up, down};
ghost use Rattle.std.specs.Float.Ieee as Ieee;
ghost use Rattle.float.specs.Near.{Near, both};

use super::exponent::sum;
use super::pack::{low_digits, pack, pow2};

// hi * 2^64 + lo.
#[derive(Clone, Copy)]
pub(crate) struct Wide {
    pub(crate) hi: u64,
    pub(crate) lo: u64,
}

// u * v, by columns of 32 binary digits.
pub(crate) fn product(u: u64, v: u64) -> Wide
    ensures { both result.hi result.lo ≡ u * v }
{
    let u0 = u % 0x1_0000_0000;
    let u1 = u / 0x1_0000_0000;
    let v0 = v % 0x1_0000_0000;
    let v1 = v / 0x1_0000_0000;
    let w0 = u0 * v0;
    let t = u1 * v0 + w0 / 0x1_0000_0000;
    let w1 = u0 * v1 + t % 0x1_0000_0000;
    let hi = u1 * v1 + t / 0x1_0000_0000 + w1 / 0x1_0000_0000;
    let lo = (w1 % 0x1_0000_0000) * 0x1_0000_0000 + w0 % 0x1_0000_0000;
    Wide { hi: hi, lo: lo }
}

// w / 2^d with a sticky digit: the lowest digit is set where a digit was cut off.
pub(crate) fn jam(w: u64, d: u32) -> u64
    requires { d < 64 }
    ensures { Near w result (2 ^ d) }
{
    let q = w >> d;
    if low_digits(w, d) == 0 {
        q
    } else {
        q + (1 - q % 2)
    }
}

// The same of a number of two words, by 64 digits,
pub(crate) fn jam_word(v: Wide) -> u64
    ensures { Near (both v.hi v.lo) result (2 ^ 64) }
{
    if v.lo == 0 {
        v.hi
    } else {
        v.hi + (1 - v.hi % 2)
    }
}

// by less than a word,
pub(crate) fn jam_short(v: Wide, d: u32) -> Wide
    requires { (0 < d) × (d < 64) }
    ensures { Near (both v.hi v.lo) (both result.hi result.lo) (2 ^ d) }
{
    let lo = jam(v.lo, d);
    let mid = low_digits(v.hi, d) * pow2(64 - d);
    Wide {
        hi: v.hi >> d,
        lo: mid + lo,
    }
}

// and by any number of digits.
pub(crate) fn jam_wide(v: Wide, d: u32) -> Wide
    requires { 0 < both v.hi v.lo }
    ensures { Near (both v.hi v.lo) (both result.hi result.lo) (2 ^ d) }
{
    if d == 0 {
        return v;
    }
    if d < 64 {
        return jam_short(v, d);
    }
    if d < 128 {
        let w = jam_word(v);
        return Wide {
            hi: 0,
            lo: jam(w, d - 64),
        };
    }
    Wide { hi: 0, lo: 1 }
}

// The word of v * 2^e, rounded once, where v's upper word is not 0. Its leading zeros say how far v is moved down to 63 digits.
pub(crate) fn round_upper(neg: bool, v: Wide, e: i32) -> u64
    requires { (0 < v.hi) × (mag e < 4096) }
    ensures { result ≡ to_bits binary64 (Ieee.round binary64 neg (both v.hi v.lo * up e) (down e)) }
{
    let d = 65 - u64::leading_zeros(v.hi);
    let w = jam_wide(v, d);
    pack(neg, w.lo, sum(e, d as i32))
}

// The word of v * 2^e, rounded once.
pub(crate) fn round_wide(neg: bool, v: Wide, e: i32) -> u64
    requires { (0 < both v.hi v.lo) × (mag e < 4000) }
    ensures { result ≡ to_bits binary64 (Ieee.round binary64 neg (both v.hi v.lo * up e) (down e)) }
{
    if v.hi == 0 {
        let t = Wide { hi: v.lo, lo: 0 };
        return round_upper(neg, t, sum(e, -64));
    }
    round_upper(neg, v, e)
}

// a + b.
pub(crate) fn wide_add(a: Wide, b: Wide) -> Wide
    requires { (a.hi < 2 ^ 63) × (b.hi < 2 ^ 63) }
    ensures { both result.hi result.lo ≡ both a.hi a.lo + both b.hi b.lo }
{
    let room = 0xffff_ffff_ffff_ffff - a.lo;
    let hi = a.hi + b.hi;
    if b.lo <= room {
        return Wide {
            hi: hi,
            lo: a.lo + b.lo,
        };
    }
    Wide {
        hi: hi + 1,
        lo: b.lo - room - 1,
    }
}

// a - b.
pub(crate) fn wide_sub(a: Wide, b: Wide) -> Wide
    requires { both b.hi b.lo ≤ both a.hi a.lo }
    ensures { both result.hi result.lo + both b.hi b.lo ≡ both a.hi a.lo }
{
    let hi = a.hi - b.hi;
    if b.lo <= a.lo {
        return Wide {
            hi: hi,
            lo: a.lo - b.lo,
        };
    }
    let room = 0xffff_ffff_ffff_ffff - b.lo;
    Wide {
        hi: hi - 1,
        lo: a.lo + room + 1,
    }
}

// Whether a < b.
pub(crate) fn wide_less(a: Wide, b: Wide) -> bool
    ensures { result ≡ ltb (both a.hi a.lo) (both b.hi b.lo) }
{
    if a.hi == b.hi {
        a.lo < b.lo
    } else {
        a.hi < b.hi
    }
}

// ±a * 2^e and ±b * 2^e added, and rounded once.
pub(crate) fn signed_sum(s: bool, a: Wide, t: bool, b: Wide, e: i32) -> u64
    requires { (0 < both a.hi a.lo) × (a.hi < 2 ^ 63) × (b.hi < 2 ^ 63) × (mag e < 4000) }
    ensures { result ≡ to_bits binary64 (Ieee.sum binary64 s (both a.hi a.lo * up e) t (both b.hi b.lo * up e) (down e)) }
{
    if s == t {
        return round_wide(s, wide_add(a, b), e);
    }
    if wide_less(a, b) {
        return round_wide(t, wide_sub(b, a), e);
    }
    if wide_less(b, a) {
        return round_wide(s, wide_sub(a, b), e);
    }
    0
}
