// The operations of `float` for C. Each export is the function of `float_calls` by its name, with its clause.
// C calls each by its name, and no macro may write a function: they stand one by one.
#![tactic(auto)]

ghost use Rattle.std.specs.Prelude.{◌≡◌};
ghost use Rattle.float.specs.Word as Word;

#[unsafe(no_mangle)]
pub extern "C" fn tulipcricket_plus(a: u64, b: u64) -> u64
    ensures { result ≡ Word.plus a b }
{
    float_calls::tulipcricket_plus(a, b)
}

#[unsafe(no_mangle)]
pub extern "C" fn tulipcricket_minus(a: u64, b: u64) -> u64
    ensures { result ≡ Word.minus a b }
{
    float_calls::tulipcricket_minus(a, b)
}

#[unsafe(no_mangle)]
pub extern "C" fn tulipcricket_times(a: u64, b: u64) -> u64
    ensures { result ≡ Word.times a b }
{
    float_calls::tulipcricket_times(a, b)
}

#[unsafe(no_mangle)]
pub extern "C" fn tulipcricket_divide(a: u64, b: u64) -> u64
    ensures { result ≡ Word.divide a b }
{
    float_calls::tulipcricket_divide(a, b)
}

#[unsafe(no_mangle)]
pub extern "C" fn tulipcricket_half(a: u64) -> u64
    ensures { result ≡ Word.half a }
{
    float_calls::tulipcricket_half(a)
}

#[unsafe(no_mangle)]
pub extern "C" fn tulipcricket_recip(a: u64) -> u64
    ensures { result ≡ Word.recip a }
{
    float_calls::tulipcricket_recip(a)
}

#[unsafe(no_mangle)]
pub extern "C" fn tulipcricket_greater_than(a: u64, b: u64) -> u64
    ensures { result ≡ Word.greater_than a b }
{
    float_calls::tulipcricket_greater_than(a, b)
}

#[unsafe(no_mangle)]
pub extern "C" fn tulipcricket_little_than(a: u64, b: u64) -> u64
    ensures { result ≡ Word.little_than a b }
{
    float_calls::tulipcricket_little_than(a, b)
}

#[unsafe(no_mangle)]
pub extern "C" fn tulipcricket_greater_than_equal(a: u64, b: u64) -> u64
    ensures { result ≡ Word.greater_than_equal a b }
{
    float_calls::tulipcricket_greater_than_equal(a, b)
}

#[unsafe(no_mangle)]
pub extern "C" fn tulipcricket_little_than_equal(a: u64, b: u64) -> u64
    ensures { result ≡ Word.little_than_equal a b }
{
    float_calls::tulipcricket_little_than_equal(a, b)
}

#[unsafe(no_mangle)]
pub extern "C" fn tulipcricket_equal(a: u64, b: u64) -> u64
    ensures { result ≡ Word.equal a b }
{
    float_calls::tulipcricket_equal(a, b)
}

#[unsafe(no_mangle)]
pub extern "C" fn tulipcricket_not_equal(a: u64, b: u64) -> u64
    ensures { result ≡ Word.not_equal a b }
{
    float_calls::tulipcricket_not_equal(a, b)
}

#[unsafe(no_mangle)]
pub extern "C" fn tulipcricket_is_zero(a: u64) -> u64
    ensures { result ≡ Word.is_zero a }
{
    float_calls::tulipcricket_is_zero(a)
}

#[unsafe(no_mangle)]
pub extern "C" fn tulipcricket_neg(a: u64) -> u64
    ensures { result ≡ Word.neg a }
{
    float_calls::tulipcricket_neg(a)
}

#[unsafe(no_mangle)]
pub extern "C" fn tulipcricket_abs(a: u64) -> u64
    ensures { result ≡ Word.abs a }
{
    float_calls::tulipcricket_abs(a)
}

#[unsafe(no_mangle)]
pub extern "C" fn tulipcricket_not(a: u64) -> u64
    ensures { result ≡ Word.not a }
{
    float_calls::tulipcricket_not(a)
}

#[unsafe(no_mangle)]
pub extern "C" fn tulipcricket_and(a: u64, b: u64) -> u64
    ensures { result ≡ Word.and a b }
{
    float_calls::tulipcricket_and(a, b)
}

#[unsafe(no_mangle)]
pub extern "C" fn tulipcricket_or(a: u64, b: u64) -> u64
    ensures { result ≡ Word.or a b }
{
    float_calls::tulipcricket_or(a, b)
}

#[unsafe(no_mangle)]
pub extern "C" fn tulipcricket_xor(a: u64, b: u64) -> u64
    ensures { result ≡ Word.xor a b }
{
    float_calls::tulipcricket_xor(a, b)
}

#[unsafe(no_mangle)]
pub extern "C" fn tulipcricket_sign(a: u64) -> u64
    ensures { result ≡ Word.sign a }
{
    float_calls::tulipcricket_sign(a)
}

#[unsafe(no_mangle)]
pub extern "C" fn tulipcricket_if_else(cond: u64, true_val: u64, false_val: u64) -> u64
    ensures { result ≡ Word.if_else cond true_val false_val }
{
    float_calls::tulipcricket_if_else(cond, true_val, false_val)
}

#[unsafe(no_mangle)]
pub extern "C" fn tulipcricket_round(a: u64) -> u64
    ensures { result ≡ Word.round a }
{
    float_calls::tulipcricket_round(a)
}

#[unsafe(no_mangle)]
pub extern "C" fn tulipcricket_floor(a: u64) -> u64
    ensures { result ≡ Word.floor a }
{
    float_calls::tulipcricket_floor(a)
}

#[unsafe(no_mangle)]
pub extern "C" fn tulipcricket_ceiling(a: u64) -> u64
    ensures { result ≡ Word.ceiling a }
{
    float_calls::tulipcricket_ceiling(a)
}

#[unsafe(no_mangle)]
pub extern "C" fn tulipcricket_trunc(a: u64) -> u64
    ensures { result ≡ Word.trunc a }
{
    float_calls::tulipcricket_trunc(a)
}

#[unsafe(no_mangle)]
pub extern "C" fn tulipcricket_root(a: u64) -> u64
    ensures { result ≡ Word.root a }
{
    float_calls::tulipcricket_root(a)
}

#[unsafe(no_mangle)]
pub extern "C" fn tulipcricket_mul_add(a: u64, b: u64, c: u64) -> u64
    ensures { result ≡ Word.mul_add a b c }
{
    float_calls::tulipcricket_mul_add(a, b, c)
}

// The complex operations: one function for the real word, one for the imaginary word.
#[unsafe(no_mangle)]
pub extern "C" fn tulipcricket_complex_plus_re(x1: u64, y1: u64, x2: u64, y2: u64) -> u64
    ensures { result ≡ (Word.complex_plus x1 y1 x2 y2).0 }
{
    float_calls::tulipcricket_complex_plus_re(x1, y1, x2, y2)
}

#[unsafe(no_mangle)]
pub extern "C" fn tulipcricket_complex_plus_im(x1: u64, y1: u64, x2: u64, y2: u64) -> u64
    ensures { result ≡ (Word.complex_plus x1 y1 x2 y2).1 }
{
    float_calls::tulipcricket_complex_plus_im(x1, y1, x2, y2)
}

#[unsafe(no_mangle)]
pub extern "C" fn tulipcricket_complex_minus_re(x1: u64, y1: u64, x2: u64, y2: u64) -> u64
    ensures { result ≡ (Word.complex_minus x1 y1 x2 y2).0 }
{
    float_calls::tulipcricket_complex_minus_re(x1, y1, x2, y2)
}

#[unsafe(no_mangle)]
pub extern "C" fn tulipcricket_complex_minus_im(x1: u64, y1: u64, x2: u64, y2: u64) -> u64
    ensures { result ≡ (Word.complex_minus x1 y1 x2 y2).1 }
{
    float_calls::tulipcricket_complex_minus_im(x1, y1, x2, y2)
}

#[unsafe(no_mangle)]
pub extern "C" fn tulipcricket_complex_times_re(x1: u64, y1: u64, x2: u64, y2: u64) -> u64
    ensures { result ≡ (Word.complex_times x1 y1 x2 y2).0 }
{
    float_calls::tulipcricket_complex_times_re(x1, y1, x2, y2)
}

#[unsafe(no_mangle)]
pub extern "C" fn tulipcricket_complex_times_im(x1: u64, y1: u64, x2: u64, y2: u64) -> u64
    ensures { result ≡ (Word.complex_times x1 y1 x2 y2).1 }
{
    float_calls::tulipcricket_complex_times_im(x1, y1, x2, y2)
}

#[unsafe(no_mangle)]
pub extern "C" fn tulipcricket_complex_divide_re(x1: u64, y1: u64, x2: u64, y2: u64) -> u64
    ensures { result ≡ (Word.complex_divide x1 y1 x2 y2).0 }
{
    float_calls::tulipcricket_complex_divide_re(x1, y1, x2, y2)
}

#[unsafe(no_mangle)]
pub extern "C" fn tulipcricket_complex_divide_im(x1: u64, y1: u64, x2: u64, y2: u64) -> u64
    ensures { result ≡ (Word.complex_divide x1 y1 x2 y2).1 }
{
    float_calls::tulipcricket_complex_divide_im(x1, y1, x2, y2)
}
