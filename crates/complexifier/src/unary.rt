// Methods of one operand.
ghost use Rattle.complexifier.specs.Does.{Does};
ghost use Rattle.lowering.specs.Lines.{each_lines, abs2_lines, timesILines, timesNegILines, real_lines, imaginary_lines, conjugate_lines, not_lines};
ghost use Rattle.lowering.specs.Complexifier.{one_by_one, copied, as_real, as_complex, half};

use super::state::Complexifier;
use lines::unary::{
    abs2_lines, conjugate_lines, each_lines, half_lines, imaginary_lines, minding_half_lines,
    not_lines, real_lines, times_i_lines, times_neg_i_lines,
};
use mir::ops::UniOp;
use mir::writer::Writer;
use sheet::setup::Mode;

impl Complexifier {
    // `neg`, `round`, `sign`
    pub fn each(&mut self, out: &mut Writer, op: UniOp, dst: u8, s1: u8)
        ensures { Does out.old self.old (one_by_one (each_lines op) copied dst s1) out.new self.new }
    {
        let x = self.is_real_reg(s1);
        each_lines(out, op, x, dst, s1);
        self.copy_real(dst, s1);
    }

    pub fn abs2(&mut self, out: &mut Writer, dst: u8, s1: u8)
        ensures { Does out.old self.old (one_by_one abs2_lines copied dst s1) out.new self.new }
    {
        let x = self.is_real_reg(s1);
        abs2_lines(out, x, dst, s1);
        self.copy_real(dst, s1);
    }

    pub fn times_i(&mut self, out: &mut Writer, dst: u8, s1: u8)
        ensures { Does out.old self.old (one_by_one timesILines as_complex dst s1) out.new self.new }
    {
        let x = self.is_real_reg(s1);
        times_i_lines(out, x, dst, s1);
        self.set_reg_complex(dst);
    }

    pub fn times_neg_i(&mut self, out: &mut Writer, dst: u8, s1: u8)
        ensures { Does out.old self.old (one_by_one timesNegILines as_complex dst s1) out.new self.new }
    {
        let x = self.is_real_reg(s1);
        times_neg_i_lines(out, x, dst, s1);
        self.set_reg_complex(dst);
    }

    // In the Rust's modes Half never changes a record.
    pub fn half(&mut self, out: &mut Writer, mode: Mode, dst: u8, s1: u8)
        ensures { Does out.old self.old (half mode dst s1) out.new self.new }
    {
        if mode.is_minding() {
            let x = self.is_real_reg(s1);
            minding_half_lines(out, x, dst, s1);
            self.copy_real(dst, s1);
            return;
        }
        half_lines(out, dst, s1);
    }

    pub fn real(&mut self, out: &mut Writer, dst: u8, s1: u8)
        ensures { Does out.old self.old (one_by_one real_lines as_real dst s1) out.new self.new }
    {
        real_lines(out, dst, s1);
        self.set_reg_real(dst);
    }

    pub fn imaginary(&mut self, out: &mut Writer, dst: u8, s1: u8)
        ensures { Does out.old self.old (one_by_one imaginary_lines as_real dst s1) out.new self.new }
    {
        let x = self.is_real_reg(s1);
        imaginary_lines(out, x, dst, s1);
        self.set_reg_real(dst);
    }

    pub fn conjugate(&mut self, out: &mut Writer, dst: u8, s1: u8)
        ensures { Does out.old self.old (one_by_one conjugate_lines copied dst s1) out.new self.new }
    {
        let x = self.is_real_reg(s1);
        conjugate_lines(out, x, dst, s1);
        self.copy_real(dst, s1);
    }

    pub fn not(&mut self, out: &mut Writer, dst: u8, s1: u8)
        ensures { Does out.old self.old (one_by_one not_lines as_real dst s1) out.new self.new }
    {
        not_lines(out, dst, s1);
        self.set_reg_real(dst);
    }
}
