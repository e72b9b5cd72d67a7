// Fused multiply-add of finite words.
ghost use Rattle.std.specs.Prelude.{◌+◌, ◌*◌, ◌%◌, ◌^◌, ◌<◌, ◌≤◌, ◌≡◌};
ghost use Rattle.std.specs.Int.Signed.{mag};
ghost use Rattle.std.specs.Float.{binary64};
ghost use Rattle.std.specs.Float.Ieee.{to_bits, unlike};
ghost use Rattle.std.specs.Float.Ieee as Ieee;
ghost use Rattle.float.specs.Biased.{biased};
ghost use Rattle.float.specs.Near.{both, Scaled};
ghost use Rattle.float.specs.Unpacked.{Normalized};
ghost use Rattle.float.specs.Word as Word;

use super::exponent::{gap, not_above, sum};
use super::parts::{Parts, unpack};
use super::wide::{Wide, jam_wide, product, round_wide, signed_sum};
use super::{abs, plus, sign, xor};

// The exponent of a product whose significand has 21 digits more.
pub(crate) fn product_exponent(a: i32, b: i32) -> i32
    requires { (mag a < 1200) × (mag b < 1200) }
    ensures { (biased result + 8213 ≡ biased a + biased b) × (mag result < 4000) }
{
    sum(sum(a, b), -21)
}

// x * y, of values that are finite and not zero, rounded once.
pub(crate) fn rounded_product(x: Parts, y: Parts) -> u64
    requires { Normalized x.m x.e × Normalized y.m y.e }
    ensures { result ≡ to_bits binary64 (Ieee.round binary64 (unlike x.neg y.neg) (x.m * y.m * 2 ^ (biased x.e + biased y.e)) (2 ^ 16384)) }
{
    round_wide(x.neg != y.neg, product(x.m, y.m), sum(x.e, y.e))
}

// ±a * 2^ea and ±b * 2^eb added, and rounded once, where eb is not above ea. b is moved down; digits that it loses leave a
// sticky one.
pub(crate) fn aligned_sum(s: bool, a: Wide, ea: i32, t: bool, b: Wide, eb: i32) -> u64
    requires { Scaled (both a.hi a.lo) × Scaled (both b.hi b.lo) × (mag ea < 4000) × (mag eb < 4000) × (biased eb ≤ biased ea) }
    ensures { result ≡ to_bits binary64 (Ieee.sum binary64 s (both a.hi a.lo * 2 ^ biased ea) t (both b.hi b.lo * 2 ^ biased eb) (2 ^ 8192)) }
{
    signed_sum(s, a, t, jam_wide(b, gap(ea, eb)), ea)
}

// x * y + z, of values that are finite and not zero. The product is written with 21 digits more and the addend with 73, so
// that both have 126 or 127.
pub(crate) fn fused_parts(x: Parts, y: Parts, z: Parts) -> u64
    requires { Normalized x.m x.e × Normalized y.m y.e × Normalized z.m z.e }
    ensures { result ≡ to_bits binary64 (Ieee.sum binary64 (unlike x.neg y.neg) (x.m * y.m * 2 ^ (biased x.e + biased y.e))
        z.neg (z.m * 2 ^ (biased z.e + 8192)) (2 ^ 16384)) }
{
    let neg = x.neg != y.neg;
    let p = product(x.m * 1024, y.m * 2048);
    let ep = product_exponent(x.e, y.e);
    let ez = sum(z.e, -73);
    let w = Wide {
        hi: z.m * 512,
        lo: 0,
    };
    if not_above(ez, ep) {
        return aligned_sum(neg, p, ep, z.neg, w, ez);
    }
    aligned_sum(z.neg, w, ez, neg, p, ep)
}

// a * b + c, of finite words. A product that is zero is exact, and addition gives the sum.
pub(crate) fn fused_finite(a: u64, b: u64, c: u64) -> u64
    requires { (a % 2 ^ 63 < 2047 * 2 ^ 52) × (b % 2 ^ 63 < 2047 * 2 ^ 52) × (c % 2 ^ 63 < 2047 * 2 ^ 52) }
    ensures { result ≡ Word.mul_add a b c }
{
    if abs(a) == 0 || abs(b) == 0 {
        return plus(xor(sign(a), sign(b)), c);
    }
    let x = unpack(a);
    let y = unpack(b);
    if abs(c) == 0 {
        return rounded_product(x, y);
    }
    let z = unpack(c);
    fused_parts(x, y, z)
}
