// Methods of two operands and of three.
ghost use Rattle.complexifier.specs.Does.{Does};
ghost use Rattle.lowering.specs.Lines.{complex_lines, order_lines};
ghost use Rattle.lowering.specs.Complexifier.{by_two, both_as_real, both_as_complex, plus, minus, times, bits, compare, ifelse, fused_mul_add, fused_mul_sub, fused_neg_mul_add, fused_neg_mul_sub};
ghost use Rattle.lowering.specs.Rerun.{rerun_fused};

use super::state::Complexifier;
use lines::binary::{
    bits_lines, compare_lines, complex_lines, ifelse_lines, minus_lines, order_lines, plus_lines,
    times_lines,
};
use mir::ops::{BinOp, FusedOp, UniOp};
use mir::records::Loc;
use mir::registers::RET;
use mir::writer::Writer;

impl Complexifier {
    pub fn plus(&mut self, out: &mut Writer, dst: u8, s1: u8, s2: u8)
        ensures { Does out.old self.old (plus dst s1 s2) out.new self.new }
    {
        let x = self.is_real_reg(s1);
        let y = self.is_real_reg(s2);
        plus_lines(out, x, y, dst, s1, s2);
        self.promote_real(dst, s1, s2);
    }

    pub fn minus(&mut self, out: &mut Writer, dst: u8, s1: u8, s2: u8)
        ensures { Does out.old self.old (minus dst s1 s2) out.new self.new }
    {
        let x = self.is_real_reg(s1);
        let y = self.is_real_reg(s2);
        minus_lines(out, x, y, dst, s1, s2);
        self.promote_real(dst, s1, s2);
    }

    pub fn times(&mut self, out: &mut Writer, dst: u8, s1: u8, s2: u8)
        ensures { Does out.old self.old (times dst s1 s2) out.new self.new }
    {
        let x = self.is_real_reg(s1);
        let y = self.is_real_reg(s2);
        times_lines(out, x, y, dst, s1, s2);
        self.promote_real(dst, s1, s2);
    }

    pub fn complex(&mut self, out: &mut Writer, dst: u8, s1: u8, s2: u8)
        ensures { Does out.old self.old (by_two complex_lines both_as_complex dst s1 s2) out.new self.new }
    {
        complex_lines(out, dst, s1, s2);
        self.set_reg_complex(dst);
    }

    // `gt`, `lt`
    pub fn order(&mut self, out: &mut Writer, op: BinOp, dst: u8, s1: u8, s2: u8)
        ensures { Does out.old self.old (by_two (order_lines op) both_as_real dst s1 s2) out.new self.new }
    {
        order_lines(out, op, dst, s1, s2);
        self.set_reg_real(dst);
    }

    // `and`, `or`, `xor`
    pub fn bits(&mut self, out: &mut Writer, op: BinOp, dst: u8, s1: u8, s2: u8)
        ensures { Does out.old self.old (bits op dst s1 s2) out.new self.new }
    {
        let x = self.is_real_reg(s1);
        let y = self.is_real_reg(s2);
        bits_lines(out, op, x, y, dst, s1, s2);
        self.promote_real(dst, s1, s2);
    }

    // `eq` (Equal, joined by And), `neq` (NotEqual, joined by Or)
    pub fn compare(&mut self, out: &mut Writer, op: BinOp, join: BinOp, dst: u8, s1: u8, s2: u8)
        ensures { Does out.old self.old (compare op join dst s1 s2) out.new self.new }
    {
        self.ensure_complex(out, s1);
        self.ensure_complex(out, s2);
        compare_lines(out, op, join, dst, s1, s2);
        self.set_reg_real(dst);
    }

    pub fn ifelse(&mut self, out: &mut Writer, dst: u8, s1: u8, s2: u8, loc: Loc)
        ensures { Does out.old self.old (ifelse dst s1 s2 loc) out.new self.new }
    {
        self.ensure_complex(out, s1);
        self.ensure_complex(out, s2);
        ifelse_lines(out, dst, s1, s2, loc);
        self.set_reg_complex(dst);
    }

    pub fn fused_mul_add(&mut self, out: &mut Writer, dst: u8, a: u8, b: u8, c: u8)
        ensures { Does out.old self.old (fused_mul_add dst a b c) out.new self.new }
    {
        self.times(out, RET, a, b);
        self.plus(out, dst, RET, c);
    }

    pub fn fused_mul_sub(&mut self, out: &mut Writer, dst: u8, a: u8, b: u8, c: u8)
        ensures { Does out.old self.old (fused_mul_sub dst a b c) out.new self.new }
    {
        self.times(out, RET, a, b);
        self.minus(out, dst, RET, c);
    }

    pub fn fused_neg_mul_add(&mut self, out: &mut Writer, dst: u8, a: u8, b: u8, c: u8)
        ensures { Does out.old self.old (fused_neg_mul_add dst a b c) out.new self.new }
    {
        self.times(out, RET, a, b);
        self.minus(out, dst, c, RET);
    }

    pub fn fused_neg_mul_sub(&mut self, out: &mut Writer, dst: u8, a: u8, b: u8, c: u8)
        ensures { Does out.old self.old (fused_neg_mul_sub dst a b c) out.new self.new }
    {
        self.times(out, RET, a, b);
        self.plus(out, dst, RET, c);
        self.each(out, UniOp::Neg, dst, dst);
    }

    #[tactic(auto, unfolding(lowering::specs::Rerun::rerun_fused))]
    pub fn rerun_fused(&mut self, out: &mut Writer, op: FusedOp, dst: u8, a: u8, b: u8, c: u8)
        ensures { Does out.old self.old (rerun_fused op dst a b c) out.new self.new }
    {
        match op {
            FusedOp::MulAdd => self.fused_mul_add(out, dst, a, b, c),
            FusedOp::MulSub => self.fused_mul_sub(out, dst, a, b, c),
            FusedOp::NegMulAdd => self.fused_neg_mul_add(out, dst, a, b, c),
            FusedOp::NegMulSub => self.fused_neg_mul_sub(out, dst, a, b, c),
        }
    }
}
