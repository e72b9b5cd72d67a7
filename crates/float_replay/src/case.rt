// One case: its words, and whether `float` gives its answer.
ghost use Rattle.std.specs.Prelude.{◌≤◌, ◌≡◌, length};
ghost use Rattle.float_replay.specs.Case as Case;
ghost use Rattle.float_replay.specs.Case.{answer};

use words::word_at;

// What the operation gives; 0 where no operation has that number.
fn result(op: u8, a: u64, b: u64, c: u64, d: u64) -> u64
    ensures { result ≡ answer op a b c d }
{
    match op {
        0 => float::plus(a, b),
        1 => float::minus(a, b),
        2 => float::times(a, b),
        3 => float::divide(a, b),
        4 => float::half(a),
        5 => float::recip(a),
        6 => float::greater_than(a, b),
        7 => float::little_than(a, b),
        8 => float::equal(a, b),
        9 => float::not_equal(a, b),
        10 => float::neg(a),
        11 => float::abs(a),
        12 => float::not(a),
        13 => float::and(a, b),
        14 => float::or(a, b),
        15 => float::xor(a, b),
        16 => float::sign(a),
        17 => float::if_else(a, b, c),
        18 => float::round(a),
        19 => float::root(a),
        20 => float::mul_add(a, b, c),
        21 => float::complex_plus(a, b, c, d).re,
        22 => float::complex_plus(a, b, c, d).im,
        23 => float::complex_minus(a, b, c, d).re,
        24 => float::complex_minus(a, b, c, d).im,
        25 => float::complex_times(a, b, c, d).re,
        26 => float::complex_times(a, b, c, d).im,
        27 => float::complex_divide(a, b, c, d).re,
        28 => float::complex_divide(a, b, c, d).im,
        29 => float::floor(a),
        30 => float::ceiling(a),
        31 => float::trunc(a),
        32 => float::is_zero(a),
        33 => float::greater_than_equal(a, b),
        34 => float::little_than_equal(a, b),
        _ => 0,
    }
}

// Whether the answer of the case s is not the one that `float` gives.
pub(crate) fn differs(s: &[u8]) -> bool
    requires { 41 ≤ length s.now }
    ensures { result ≡ Case.differs s.now }
{
    let op = s[0];
    if op >= 35 {
        return true;
    }
    let r = result(
        op,
        word_at(s, 1),
        word_at(s, 9),
        word_at(s, 17),
        word_at(s, 25),
    );
    r != word_at(s, 33)
}
