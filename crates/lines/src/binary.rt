// Methods of two operands.
#![tactic(auto, unfolding(lowering::specs::Lines::plus_lines, lowering::specs::Lines::minus_lines, lowering::specs::Lines::times_lines, lowering::specs::Lines::divide_lines, lowering::specs::Lines::complex_lines, lowering::specs::Lines::order_lines, lowering::specs::Lines::compare_lines, lowering::specs::Lines::bits_lines, lowering::specs::Lines::ifelse_lines))]

ghost use Rattle.std.specs.Prelude.{false, map};
ghost use Rattle.mir.specs.declared.records.Record.{Record};
ghost use Rattle.lowering.specs.Lines.{plus_lines, minus_lines, times_lines, divide_lines, complex_lines, order_lines, compare_lines, bits_lines, ifelse_lines};
ghost use Rattle.mir.specs.Writing.{Lists};

use super::emit::{bi, complex_bi, fused_mul_add, if_else, mov, uni};
use super::parts::{Part, T0, T1, TEMP_RE};
use mir::ops::{ArithOp, BinOp, UniOp};
use mir::records::Loc;
use mir::writer::Writer;

// `plus`
pub fn plus_lines(out: &mut Writer, x: bool, y: bool, d: u8, a: u8, b: u8)
    ensures { Lists out.old (map Record.Work (plus_lines x y d a b)) out.new }
{
    if x {
        bi(out, BinOp::Plus, Part::Re(d), Part::Re(a), Part::Re(b));
        if y {
            return;
        }
        mov(out, Part::Im(d), Part::Im(b));
        return;
    }
    if y {
        bi(out, BinOp::Plus, Part::Re(d), Part::Re(a), Part::Re(b));
        mov(out, Part::Im(d), Part::Im(a));
        return;
    }
    complex_bi(out, ArithOp::Plus, d, a, b)
}

// `minus`
pub fn minus_lines(out: &mut Writer, x: bool, y: bool, d: u8, a: u8, b: u8)
    ensures { Lists out.old (map Record.Work (minus_lines x y d a b)) out.new }
{
    if x {
        bi(out, BinOp::Minus, Part::Re(d), Part::Re(a), Part::Re(b));
        if y {
            return;
        }
        uni(out, UniOp::Neg, Part::Im(d), Part::Im(b));
        return;
    }
    if y {
        bi(out, BinOp::Minus, Part::Re(d), Part::Re(a), Part::Re(b));
        mov(out, Part::Im(d), Part::Im(a));
        return;
    }
    complex_bi(out, ArithOp::Minus, d, a, b)
}

// `times`
pub fn times_lines(out: &mut Writer, x: bool, y: bool, d: u8, a: u8, b: u8)
    ensures { Lists out.old (map Record.Work (times_lines x y d a b)) out.new }
{
    if x {
        if y {
            bi(out, BinOp::Times, Part::Re(d), Part::Re(a), Part::Re(b));
            return;
        }
        bi(out, BinOp::Times, Part::Im(d), Part::Re(a), Part::Im(b));
        bi(out, BinOp::Times, Part::Re(d), Part::Re(a), Part::Re(b));
        return;
    }
    if y {
        bi(out, BinOp::Times, Part::Im(d), Part::Im(a), Part::Re(b));
        bi(out, BinOp::Times, Part::Re(d), Part::Re(a), Part::Re(b));
        return;
    }
    complex_bi(out, ArithOp::Times, d, a, b)
}

// `divide`, by a complex register in plain mode
pub fn divide_lines(out: &mut Writer, x: bool, y: bool, d: u8, a: u8, b: u8)
    ensures { Lists out.old (map Record.Work (divide_lines x y d a b)) out.new }
{
    let c = Part::Re(b);
    if y {
        if x {
            bi(out, BinOp::Divide, Part::Re(d), Part::Re(a), c);
            return;
        }
        bi(out, BinOp::Divide, Part::Im(d), Part::Im(a), c);
        bi(out, BinOp::Divide, Part::Re(d), Part::Re(a), c);
        return;
    }
    if x {
        bi(out, BinOp::Times, T0, c, c);
        fused_mul_add(out, TEMP_RE, Part::Im(b), Part::Im(b), T0);
        bi(out, BinOp::Times, T0, Part::Re(a), c);
        bi(out, BinOp::Times, T1, Part::Re(a), Part::Im(b));
        uni(out, UniOp::Neg, Part::Im(d), T1);
        bi(out, BinOp::Divide, Part::Im(d), Part::Im(d), TEMP_RE);
        bi(out, BinOp::Divide, Part::Re(d), T0, TEMP_RE);
        return;
    }
    complex_bi(out, ArithOp::Divide, d, a, b)
}

// `complex`: the same lines whatever is recorded
pub fn complex_lines(out: &mut Writer, d: u8, a: u8, b: u8)
    ensures { Lists out.old (map Record.Work (complex_lines false false d a b)) out.new }
{
    mov(out, Part::Im(d), Part::Re(b));
    mov(out, Part::Re(d), Part::Re(a))
}

// `gt`, `lt`: the same line whatever is recorded
pub fn order_lines(out: &mut Writer, op: BinOp, d: u8, a: u8, b: u8)
    ensures { Lists out.old (map Record.Work (order_lines op false false d a b)) out.new }
{
    bi(out, op, Part::Re(d), Part::Re(a), Part::Re(b))
}

// `eq`, `neq`, behind `ensure_complex` of both
pub fn compare_lines(out: &mut Writer, op: BinOp, join: BinOp, d: u8, a: u8, b: u8)
    ensures { Lists out.old (map Record.Work (compare_lines op join d a b)) out.new }
{
    let c = Part::Im(d);
    bi(out, op, c, Part::Im(a), Part::Im(b));
    let e = Part::Re(d);
    bi(out, op, e, Part::Re(a), Part::Re(b));
    bi(out, join, e, e, c)
}

// `and`, `or`, `xor`
pub fn bits_lines(out: &mut Writer, op: BinOp, x: bool, y: bool, d: u8, a: u8, b: u8)
    ensures { Lists out.old (map Record.Work (bits_lines op x y d a b)) out.new }
{
    if x {
        if y {
            bi(out, op, Part::Re(d), Part::Re(a), Part::Re(b));
            return;
        }
        bi(out, op, Part::Im(d), Part::Re(a), Part::Im(b));
        bi(out, op, Part::Re(d), Part::Re(a), Part::Re(b));
        return;
    }
    if y {
        bi(out, op, Part::Im(d), Part::Im(a), Part::Re(b));
        bi(out, op, Part::Re(d), Part::Re(a), Part::Re(b));
        return;
    }
    bi(out, op, Part::Im(d), Part::Im(a), Part::Im(b));
    bi(out, op, Part::Re(d), Part::Re(a), Part::Re(b))
}

// `ifelse`, behind `ensure_complex` of both
pub fn ifelse_lines(out: &mut Writer, d: u8, a: u8, b: u8, loc: Loc)
    ensures { Lists out.old (map Record.Work (ifelse_lines d a b loc)) out.new }
{
    if_else(out, Part::Re(d), Part::Re(a), Part::Re(b), loc);
    if_else(out, Part::Im(d), Part::Im(a), Part::Im(b), loc)
}
