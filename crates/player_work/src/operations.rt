// The operations of a record on words. An operation that no listing takes gives its first word.
ghost use Rattle.std.specs.Prelude.{◌≡◌};
ghost use Rattle.player_machine.specs.Machine.{uni_word, bin_word, fused_word, complex_words};

use float::Pair;
use mir::ops::{ArithOp, BinOp, FusedOp, UniOp};

pub fn uni_word(op: UniOp, a: u64) -> u64
    ensures { result ≡ uni_word op a }
{
    match op {
        UniOp::Neg => float::neg(a),
        UniOp::Not => float::not(a),
        UniOp::Abs => float::abs(a),
        UniOp::Root => float::root(a),
        UniOp::RealRoot => a,
        UniOp::Recip => float::recip(a),
        UniOp::Round => float::round(a),
        UniOp::Floor => float::floor(a),
        UniOp::Ceiling => float::ceiling(a),
        UniOp::Trunc => float::trunc(a),
        UniOp::Real => a,
        UniOp::Imaginary => a,
        UniOp::Conjugate => a,
        UniOp::Half => float::half(a),
        UniOp::IsZero => float::is_zero(a),
        UniOp::IsNotZero => a,
        UniOp::Sign => float::sign(a),
        UniOp::Abs2 => a,
        UniOp::TimesI => a,
        UniOp::TimesNegI => a,
    }
}

pub fn bin_word(op: BinOp, a: u64, b: u64) -> u64
    ensures { result ≡ bin_word op a b }
{
    match op {
        BinOp::Plus => float::plus(a, b),
        BinOp::Minus => float::minus(a, b),
        BinOp::Times => float::times(a, b),
        BinOp::Divide => float::divide(a, b),
        BinOp::GreaterThan => float::greater_than(a, b),
        BinOp::GreaterThanEqual => float::greater_than_equal(a, b),
        BinOp::LittleThan => float::little_than(a, b),
        BinOp::LittleThanEqual => float::little_than_equal(a, b),
        BinOp::Equal => float::equal(a, b),
        BinOp::NotEqual => float::not_equal(a, b),
        BinOp::And => float::and(a, b),
        BinOp::AndNot => a,
        BinOp::Or => float::or(a, b),
        BinOp::Xor => float::xor(a, b),
        BinOp::Complex => a,
    }
}

pub fn fused_word(op: FusedOp, a: u64, b: u64, c: u64) -> u64
    ensures { result ≡ fused_word op a b c }
{
    match op {
        FusedOp::MulAdd => float::mul_add(a, b, c),
        FusedOp::MulSub => a,
        FusedOp::NegMulAdd => a,
        FusedOp::NegMulSub => a,
    }
}

pub fn complex_words(op: ArithOp, x1: u64, y1: u64, x2: u64, y2: u64) -> Pair
    ensures { (result.re ≡ (complex_words op x1 y1 x2 y2).0) × (result.im ≡ (complex_words op x1 y1 x2 y2).1) }
{
    match op {
        ArithOp::Plus => float::complex_plus(x1, y1, x2, y2),
        ArithOp::Minus => float::complex_minus(x1, y1, x2, y2),
        ArithOp::Times => float::complex_times(x1, y1, x2, y2),
        ArithOp::Divide => float::complex_divide(x1, y1, x2, y2),
    }
}
