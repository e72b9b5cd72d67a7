// What the stable methods of complexify.rs list in place of the plain ones, behind a scale by a power of two. i, j and q are the indices
// of the constants that they name.
#![tactic(auto, unfolding(lowering::specs::Lines::stable_exponent, lowering::specs::Lines::stable_divisor_scale, lowering::specs::Lines::scaled_divide, lowering::specs::Lines::stable_divide_lines, lowering::specs::Lines::stable_recip_lines, lowering::specs::Lines::stable_abs_lines))]

ghost use Rattle.std.specs.Prelude.{map};
ghost use Rattle.mir.specs.Register.{re, im};
ghost use Rattle.mir.specs.declared.records.Record.{Record};
ghost use Rattle.lowering.specs.Lines.{stable_exponent, stable_divisor_scale, scaled_divide, stable_divide_lines, stable_recip_lines, stable_abs_lines};
ghost use Rattle.lines.specs.Parts.{part_of};
ghost use Rattle.mir.specs.Writing.{Lists};

use lines::emit::{bi, complex_bi, fused_mul_add, load_const, uni};
use lines::parts::{Part, RET_RE, T0, T1, TEMP_IM, TEMP_RE};
use mir::ops::{ArithOp, BinOp, UniOp};
use mir::registers::TEMP;
use mir::writer::Writer;

// `stable_exponent`
pub fn stable_exponent(out: &mut Writer, x: Part, y: Part, i: u16, j: u16)
    ensures { Lists out.old (map Record.Work (stable_exponent (part_of x) (part_of y) i j)) out.new }
{
    uni(out, UniOp::Abs, T0, x);
    uni(out, UniOp::Half, T0, T0);
    uni(out, UniOp::Abs, T1, y);
    uni(out, UniOp::Half, T1, T1);
    bi(out, BinOp::Plus, T0, T0, T1);
    load_const(out, T1, i);
    bi(out, BinOp::Plus, T0, T0, T1);
    load_const(out, T1, j);
    bi(out, BinOp::And, T0, T0, T1)
}

// `stable_divisor_scale`
pub fn stable_divisor_scale(out: &mut Writer, x: Part, y: Part, i: u16, j: u16, q: u16)
    ensures { Lists out.old (map Record.Work (stable_divisor_scale (part_of x) (part_of y) i j q)) out.new }
{
    stable_exponent(out, x, y, i, j);
    bi(out, BinOp::Xor, T0, T0, T1);
    load_const(out, T1, q);
    bi(out, BinOp::Times, T0, T0, T1)
}

// `stable_divide` behind the scale: the scaled dividend stands in the halves of n, the divisor in those of m
fn scaled_divide(out: &mut Writer, x: bool, d: u8, a: u8, b: u8, n: u8, m: u8)
    ensures { Lists out.old (map Record.Work (scaled_divide x d a b (re n) (im n) (re m) (im m))) out.new }
{
    if x {
        bi(out, BinOp::Times, Part::Re(n), Part::Re(a), T0);
        bi(out, BinOp::Times, Part::Re(m), Part::Re(b), T0);
        bi(out, BinOp::Times, Part::Im(m), Part::Im(b), T0);
        bi(out, BinOp::Times, T1, Part::Re(m), Part::Re(m));
        bi(out, BinOp::Times, Part::Im(n), Part::Re(n), Part::Im(m));
        bi(out, BinOp::Times, Part::Re(n), Part::Re(n), Part::Re(m));
        fused_mul_add(out, T1, Part::Im(m), Part::Im(m), T1);
        uni(out, UniOp::Neg, Part::Im(n), Part::Im(n));
        bi(out, BinOp::Divide, Part::Im(d), Part::Im(n), T1);
        bi(out, BinOp::Divide, Part::Re(d), Part::Re(n), T1);
        return;
    }
    bi(out, BinOp::Times, Part::Re(n), Part::Re(a), T0);
    bi(out, BinOp::Times, Part::Im(n), Part::Im(a), T0);
    bi(out, BinOp::Times, Part::Re(m), Part::Re(b), T0);
    bi(out, BinOp::Times, Part::Im(m), Part::Im(b), T0);
    complex_bi(out, ArithOp::Divide, d, n, m)
}

// `stable_divide`
pub fn stable_divide_lines(
    out: &mut Writer,
    general: bool,
    x: bool,
    d: u8,
    a: u8,
    b: u8,
    i: u16,
    j: u16,
    q: u16,
)
    ensures { Lists out.old (map Record.Work (stable_divide_lines general x d a b i j q)) out.new }
{
    stable_divisor_scale(out, Part::Re(b), Part::Im(b), i, j, q);
    if general {
        scaled_divide(out, x, d, a, b, TEMP, d);
        return;
    }
    scaled_divide(out, x, d, a, b, d, TEMP)
}

// `stable_recip`
pub fn stable_recip_lines(out: &mut Writer, d: u8, a: u8, i: u16, j: u16, q: u16)
    ensures { Lists out.old (map Record.Work (stable_recip_lines d a i j q)) out.new }
{
    stable_divisor_scale(out, Part::Re(a), Part::Im(a), i, j, q);
    bi(out, BinOp::Times, TEMP_RE, Part::Re(a), T0);
    bi(out, BinOp::Times, TEMP_IM, Part::Im(a), T0);
    bi(out, BinOp::Times, T1, TEMP_RE, TEMP_RE);
    fused_mul_add(out, T1, TEMP_IM, TEMP_IM, T1);
    bi(out, BinOp::Divide, TEMP_RE, TEMP_RE, T1);
    bi(out, BinOp::Divide, TEMP_IM, TEMP_IM, T1);
    uni(out, UniOp::Neg, TEMP_IM, TEMP_IM);
    bi(out, BinOp::Times, Part::Re(d), TEMP_RE, T0);
    bi(out, BinOp::Times, Part::Im(d), TEMP_IM, T0)
}

// `stable_abs`
pub fn stable_abs_lines(out: &mut Writer, d: u8, a: u8, i: u16, j: u16, q: u16)
    ensures { Lists out.old (map Record.Work (stable_abs_lines d a i j q)) out.new }
{
    stable_exponent(out, Part::Re(a), Part::Im(a), i, j);
    load_const(out, T1, q);
    bi(out, BinOp::Xor, T1, T0, T1);
    uni(out, UniOp::Half, T1, T1);
    bi(out, BinOp::Times, RET_RE, Part::Re(a), T1);
    bi(out, BinOp::Times, T1, Part::Im(a), T1);
    bi(out, BinOp::Times, RET_RE, RET_RE, RET_RE);
    bi(out, BinOp::Times, T1, T1, T1);
    bi(out, BinOp::Plus, RET_RE, RET_RE, T1);
    uni(out, UniOp::Root, RET_RE, RET_RE);
    bi(out, BinOp::Times, Part::Re(d), RET_RE, T0);
    bi(out, BinOp::Xor, Part::Im(d), Part::Im(d), Part::Im(d))
}
