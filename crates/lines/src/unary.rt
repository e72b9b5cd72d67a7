// Methods of one operand.
#![tactic(auto, unfolding(lowering::specs::Lines::each_lines, lowering::specs::Lines::abs_lines, lowering::specs::Lines::abs2_lines, lowering::specs::Lines::timesILines, lowering::specs::Lines::timesNegILines, lowering::specs::Lines::real_root_lines, lowering::specs::Lines::recip_lines, lowering::specs::Lines::half_lines, lowering::specs::Lines::minding_half_lines, lowering::specs::Lines::real_lines, lowering::specs::Lines::imaginary_lines, lowering::specs::Lines::conjugate_lines, lowering::specs::Lines::not_lines))]

ghost use Rattle.std.specs.Prelude.{false, map};
ghost use Rattle.mir.specs.declared.records.Record.{Record};
ghost use Rattle.lowering.specs.Lines.{each_lines, abs_lines, abs2_lines, timesILines, timesNegILines, real_root_lines, recip_lines, half_lines, minding_half_lines, real_lines, imaginary_lines, conjugate_lines, not_lines};
ghost use Rattle.mir.specs.Writing.{Lists};

use super::emit::{bi, fused_mul_add, mov, uni};
use super::parts::{Part, T0, T1};
use mir::ops::{BinOp, UniOp};
use mir::writer::Writer;

// `neg`, `sign`, `round`
pub fn each_lines(out: &mut Writer, op: UniOp, x: bool, d: u8, a: u8)
    ensures { Lists out.old (map Record.Work (each_lines op x d a)) out.new }
{
    uni(out, op, Part::Re(d), Part::Re(a));
    if x {
        return;
    }
    uni(out, op, Part::Im(d), Part::Im(a))
}

// `abs`, of a complex register in plain mode
pub fn abs_lines(out: &mut Writer, x: bool, d: u8, a: u8)
    ensures { Lists out.old (map Record.Work (abs_lines x d a)) out.new }
{
    if x {
        uni(out, UniOp::Abs, Part::Re(d), Part::Re(a));
        return;
    }
    bi(out, BinOp::Times, T0, Part::Re(a), Part::Re(a));
    bi(out, BinOp::Times, T1, Part::Im(a), Part::Im(a));
    bi(out, BinOp::Plus, Part::Re(d), T0, T1);
    uni(out, UniOp::Root, Part::Re(d), Part::Re(d));
    bi(out, BinOp::Xor, Part::Im(d), Part::Im(d), Part::Im(d))
}

// `abs2`
pub fn abs2_lines(out: &mut Writer, x: bool, d: u8, a: u8)
    ensures { Lists out.old (map Record.Work (abs2_lines x d a)) out.new }
{
    if x {
        bi(out, BinOp::Times, Part::Re(d), Part::Re(a), Part::Re(a));
        return;
    }
    bi(out, BinOp::Times, T0, Part::Re(a), Part::Re(a));
    bi(out, BinOp::Times, T1, Part::Im(a), Part::Im(a));
    bi(out, BinOp::Plus, Part::Re(d), T0, T1);
    bi(out, BinOp::Xor, Part::Im(d), Part::Im(d), Part::Im(d))
}

// `times_i`
pub fn times_i_lines(out: &mut Writer, x: bool, d: u8, a: u8)
    ensures { Lists out.old (map Record.Work (timesILines x d a)) out.new }
{
    if x {
        mov(out, Part::Im(d), Part::Re(a));
        bi(out, BinOp::Xor, Part::Re(d), Part::Re(d), Part::Re(d));
        return;
    }
    uni(out, UniOp::Neg, T1, Part::Im(a));
    mov(out, Part::Im(d), Part::Re(a));
    mov(out, Part::Re(d), T1)
}

// `times_neg_i`
pub fn times_neg_i_lines(out: &mut Writer, x: bool, d: u8, a: u8)
    ensures { Lists out.old (map Record.Work (timesNegILines x d a)) out.new }
{
    if x {
        uni(out, UniOp::Neg, Part::Im(d), Part::Re(a));
        bi(out, BinOp::Xor, Part::Re(d), Part::Re(d), Part::Re(d));
        return;
    }
    mov(out, T1, Part::Im(a));
    uni(out, UniOp::Neg, Part::Im(d), Part::Re(a));
    mov(out, Part::Re(d), T1)
}

// `real_root` of a real register
pub fn real_root_lines(out: &mut Writer, d: u8, a: u8)
    ensures { Lists out.old (map Record.Work (real_root_lines d a)) out.new }
{
    uni(out, UniOp::Root, Part::Re(d), Part::Re(a))
}

// `recip`, of a complex register in plain mode
pub fn recip_lines(out: &mut Writer, x: bool, d: u8, a: u8)
    ensures { Lists out.old (map Record.Work (recip_lines x d a)) out.new }
{
    if x {
        uni(out, UniOp::Recip, Part::Re(d), Part::Re(a));
        return;
    }
    bi(out, BinOp::Times, T0, Part::Re(a), Part::Re(a));
    fused_mul_add(out, T0, Part::Im(a), Part::Im(a), T0);
    bi(out, BinOp::Divide, Part::Re(d), Part::Re(a), T0);
    bi(out, BinOp::Divide, Part::Im(d), Part::Im(a), T0);
    uni(out, UniOp::Neg, Part::Im(d), Part::Im(d))
}

// `half`
pub fn half_lines(out: &mut Writer, d: u8, a: u8)
    ensures { Lists out.old (map Record.Work (half_lines d a)) out.new }
{
    uni(out, UniOp::Half, Part::Im(d), Part::Im(a));
    uni(out, UniOp::Half, Part::Re(d), Part::Re(a))
}

// Half in mode 2
pub fn minding_half_lines(out: &mut Writer, x: bool, d: u8, a: u8)
    ensures { Lists out.old (map Record.Work (minding_half_lines x d a)) out.new }
{
    if x {
        uni(out, UniOp::Half, Part::Re(d), Part::Re(a));
        return;
    }
    half_lines(out, d, a)
}

// `real`: the same lines of a real register
pub fn real_lines(out: &mut Writer, d: u8, a: u8)
    ensures { Lists out.old (map Record.Work (real_lines false d a)) out.new }
{
    mov(out, Part::Re(d), Part::Re(a));
    bi(out, BinOp::Xor, Part::Im(d), Part::Im(d), Part::Im(d))
}

// `imaginary`
pub fn imaginary_lines(out: &mut Writer, x: bool, d: u8, a: u8)
    ensures { Lists out.old (map Record.Work (imaginary_lines x d a)) out.new }
{
    if x {
        bi(out, BinOp::Xor, Part::Re(d), Part::Re(d), Part::Re(d));
        bi(out, BinOp::Xor, Part::Im(d), Part::Im(d), Part::Im(d));
        return;
    }
    mov(out, Part::Re(d), Part::Im(a));
    bi(out, BinOp::Xor, Part::Im(d), Part::Im(d), Part::Im(d))
}

// `conjugate`
pub fn conjugate_lines(out: &mut Writer, x: bool, d: u8, a: u8)
    ensures { Lists out.old (map Record.Work (conjugate_lines x d a)) out.new }
{
    mov(out, Part::Re(d), Part::Re(a));
    if x {
        return;
    }
    mov(out, Part::Im(d), Part::Im(a));
    uni(out, UniOp::Neg, Part::Im(d), Part::Im(d))
}

// `not`: the same line of a real register
pub fn not_lines(out: &mut Writer, d: u8, a: u8)
    ensures { Lists out.old (map Record.Work (not_lines false d a)) out.new }
{
    uni(out, UniOp::Not, Part::Re(d), Part::Re(a))
}
