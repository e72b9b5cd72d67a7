// The player's arithmetic: IEEE 754 binary64 on 64-bit words, each function from bit patterns to a bit pattern.
// A NaN that is computed keeps the mark of the first NaN among its operands.
#![tactic(auto)]

ghost use Rattle.std.specs.Prelude.{◌+◌, ◌-◌, ◌*◌, ◌/◌, ◌^◌, ◌<◌, ◌≡◌, [], ◌∷◌};
ghost use Rattle.std.specs.Float.{binary64};
ghost use Rattle.std.specs.Float.Ieee.{nan_bits};
ghost use Rattle.float.specs.Word as Word;

mod exponent;
mod fused;
mod integral;
mod pack;
mod parts;
mod sqrt;
mod wide;

use integral::{Direction, round_to_integral};

// A NaN from operands that are none.
const NAN: u64 = 0x7ff8_0000_0000_0000;

// Bit 51, which is set in every NaN that is computed.
const QUIET: u64 = 0x0008_0000_0000_0000;

const INFINITY: u64 = 0x7ff0_0000_0000_0000;

const SIGN: u64 = 0x8000_0000_0000_0000;

const MAGNITUDE: u64 = 0x7fff_ffff_ffff_ffff;

// A complex number: its real and its imaginary word.
#[derive(Clone, Copy)]
pub struct Pair {
    pub re: u64,
    pub im: u64,
}

// Whether a is a NaN's pattern: without its sign it is above infinity's.
pub fn is_nan(a: u64) -> bool
    ensures { result ≡ nan_bits binary64 a }
{
    (a & MAGNITUDE) > INFINITY
}

// The value that a stands for.
pub fn read(a: u64) -> f64
    ensures { result ≡ Word.value a }
{
    if is_nan(a) {
        0.0 / 0.0
    } else {
        f64::from_bits(a)
    }
}

// The word of a NaN that is computed from a, b and c. Of two operands the third is 0, which is no NaN.
fn mark(a: u64, b: u64, c: u64) -> u64
    ensures { result ≡ Word.mark (a ∷ b ∷ c ∷ []) }
{
    if is_nan(a) {
        return a | QUIET;
    }
    if is_nan(b) {
        return b | QUIET;
    }
    if is_nan(c) {
        return c | QUIET;
    }
    NAN
}

// The word of x, which is computed from a, b and c.
fn write(x: f64, a: u64, b: u64, c: u64) -> u64
    ensures { result ≡ Word.word (a ∷ b ∷ c ∷ []) x }
{
    if x != x {
        mark(a, b, c)
    } else {
        f64::to_bits(x)
    }
}

// Each operation, and each comparison below, is a line that differs in its operator: one function of the operator would be no plainer.
pub fn plus(a: u64, b: u64) -> u64
    ensures { result ≡ Word.plus a b }
{
    write(read(a) + read(b), a, b, 0)
}

pub fn minus(a: u64, b: u64) -> u64
    ensures { result ≡ Word.minus a b }
{
    write(read(a) - read(b), a, b, 0)
}

pub fn times(a: u64, b: u64) -> u64
    ensures { result ≡ Word.times a b }
{
    write(read(a) * read(b), a, b, 0)
}

pub fn divide(a: u64, b: u64) -> u64
    ensures { result ≡ Word.divide a b }
{
    write(read(a) / read(b), a, b, 0)
}

pub fn half(a: u64) -> u64
    ensures { result ≡ Word.half a }
{
    write(read(a) * 0.5, a, 0x3fe0_0000_0000_0000, 0)
}

pub fn recip(a: u64) -> u64
    ensures { result ≡ Word.recip a }
{
    write(1.0 / read(a), 0x3ff0_0000_0000_0000, a, 0)
}

// All ones where b holds, else zero.
fn flag(b: bool) -> u64
    ensures { result ≡ Word.flag b }
{
    if b { 0xffff_ffff_ffff_ffff } else { 0 }
}

pub fn greater_than(a: u64, b: u64) -> u64
    ensures { result ≡ Word.greater_than a b }
{
    flag(read(a) > read(b))
}

pub fn little_than(a: u64, b: u64) -> u64
    ensures { result ≡ Word.little_than a b }
{
    flag(read(a) < read(b))
}

pub fn greater_than_equal(a: u64, b: u64) -> u64
    ensures { result ≡ Word.greater_than_equal a b }
{
    flag(read(a) >= read(b))
}

pub fn little_than_equal(a: u64, b: u64) -> u64
    ensures { result ≡ Word.little_than_equal a b }
{
    flag(read(a) <= read(b))
}

pub fn equal(a: u64, b: u64) -> u64
    ensures { result ≡ Word.equal a b }
{
    flag(read(a) == read(b))
}

pub fn not_equal(a: u64, b: u64) -> u64
    ensures { result ≡ Word.not_equal a b }
{
    flag(read(a) != read(b))
}

// Whether a is either zero.
pub fn is_zero(a: u64) -> u64
    ensures { result ≡ Word.is_zero a }
{
    equal(a, 0)
}

pub fn neg(a: u64) -> u64
    ensures { result ≡ Word.neg a }
{
    a ^ SIGN
}

pub fn abs(a: u64) -> u64
    ensures { result ≡ Word.abs a }
{
    a & MAGNITUDE
}

pub fn not(a: u64) -> u64
    ensures { result ≡ Word.not a }
{
    !a
}

pub fn and(a: u64, b: u64) -> u64
    ensures { result ≡ Word.and a b }
{
    a & b
}

pub fn or(a: u64, b: u64) -> u64
    ensures { result ≡ Word.or a b }
{
    a | b
}

pub fn xor(a: u64, b: u64) -> u64
    ensures { result ≡ Word.xor a b }
{
    a ^ b
}

pub fn sign(a: u64) -> u64
    ensures { result ≡ Word.sign a }
{
    a & SIGN
}

// Each bit from true_val where cond has a one, else from false_val.
pub fn if_else(cond: u64, true_val: u64, false_val: u64) -> u64
    ensures { result ≡ Word.if_else cond true_val false_val }
{
    (cond & true_val) | (!cond & false_val)
}

// The nearest whole number, a tie to the even one.
pub fn round(a: u64) -> u64
    ensures { result ≡ Word.round a }
{
    round_to_integral(Direction::TiesToEven, a)
}

// The greatest whole number that is not above a.
pub fn floor(a: u64) -> u64
    ensures { result ≡ Word.floor a }
{
    round_to_integral(Direction::TowardNegative, a)
}

// The least whole number that is not below a.
pub fn ceiling(a: u64) -> u64
    ensures { result ≡ Word.ceiling a }
{
    round_to_integral(Direction::TowardPositive, a)
}

// The whole number that is left where the digits below the point are cut off.
pub fn trunc(a: u64) -> u64
    ensures { result ≡ Word.trunc a }
{
    round_to_integral(Direction::TowardZero, a)
}

// The square root, rounded once.
pub fn root(a: u64) -> u64
    ensures { result ≡ Word.root a }
{
    let size = abs(a);
    if size > INFINITY {
        return a | QUIET;
    }
    if size == 0 {
        return a;
    }
    if a >= SIGN {
        return NAN;
    }
    if a == INFINITY {
        return a;
    }
    sqrt::root_finite(a)
}

// a * b + c, rounded once. Where a or b is infinite or a NaN the product is exact, and where c alone is, the sum is c.
pub fn mul_add(a: u64, b: u64, c: u64) -> u64
    ensures { result ≡ Word.mul_add a b c }
{
    if abs(a) >= INFINITY || abs(b) >= INFINITY {
        return write(read(a) * read(b) + read(c), a, b, c);
    }
    if abs(c) >= INFINITY {
        return write(read(c), a, b, c);
    }
    fused::fused_finite(a, b, c)
}

pub fn complex_plus(x1: u64, y1: u64, x2: u64, y2: u64) -> Pair
    ensures { (result.re ≡ (Word.complex_plus x1 y1 x2 y2).0) × (result.im ≡ (Word.complex_plus x1 y1 x2 y2).1) }
{
    Pair {
        re: plus(x1, x2),
        im: plus(y1, y2),
    }
}

pub fn complex_minus(x1: u64, y1: u64, x2: u64, y2: u64) -> Pair
    ensures { (result.re ≡ (Word.complex_minus x1 y1 x2 y2).0) × (result.im ≡ (Word.complex_minus x1 y1 x2 y2).1) }
{
    Pair {
        re: minus(x1, x2),
        im: minus(y1, y2),
    }
}

pub fn complex_times(x1: u64, y1: u64, x2: u64, y2: u64) -> Pair
    ensures { (result.re ≡ (Word.complex_times x1 y1 x2 y2).0) × (result.im ≡ (Word.complex_times x1 y1 x2 y2).1) }
{
    Pair {
        re: minus(times(x1, x2), times(y1, y2)),
        im: plus(times(y1, x2), times(x1, y2)),
    }
}

pub fn complex_divide(x1: u64, y1: u64, x2: u64, y2: u64) -> Pair
    ensures { (result.re ≡ (Word.complex_divide x1 y1 x2 y2).0) × (result.im ≡ (Word.complex_divide x1 y1 x2 y2).1) }
{
    let d = plus(times(x2, x2), times(y2, y2));
    let re = plus(times(x1, x2), times(y1, y2));
    let im = minus(times(y1, x2), times(x1, y2));
    Pair {
        re: divide(re, d),
        im: divide(im, d),
    }
}
