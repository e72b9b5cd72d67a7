// Moves, places, the call of the root block, and the labels and branches of a sheet.
ghost use Rattle.complexifier.specs.Does.{Does};
ghost use Rattle.lowering.specs.Complexifier.{ensure_complex, fmov, load_const, load_from, save_to, call_root, set_label, branch, branch_if};

use super::state::Complexifier;
use lines::moves::{ensure_lines, fmov_lines, load_const_lines, load_lines, save_lines};
use mir::records::Loc;
use mir::registers::{RET, re};
use mir::writer::Writer;

impl Complexifier {
    pub fn ensure_complex(&mut self, out: &mut Writer, d: u8)
        ensures { Does out.old self.old (ensure_complex d) out.new self.new }
    {
        let x = self.is_real_reg(d);
        ensure_lines(out, x, d);
        self.set_reg_complex(d);
    }

    pub fn fmov(&mut self, out: &mut Writer, dst: u8, s1: u8)
        ensures { Does out.old self.old (fmov dst s1) out.new self.new }
    {
        let x = self.is_real_reg(s1);
        fmov_lines(out, x, dst, s1);
        self.copy_real(dst, s1);
    }

    pub fn load_const(&mut self, out: &mut Writer, dst: u8, idx: u16)
        ensures { Does out.old self.old (load_const dst idx) out.new self.new }
    {
        load_const_lines(out, dst, idx);
        self.set_reg_real(dst);
    }

    // `load_mem`, `load_param`, `load_stack`
    pub fn load_from(&mut self, out: &mut Writer, dst: u8, loc: Loc)
        ensures { Does out.old self.old (load_from dst loc) out.new self.new }
    {
        let x = self.is_real_loc(loc);
        load_lines(out, x, dst, loc);
        self.set_reg(dst, x);
    }

    // `save_mem`, `save_stack`
    pub fn save_to(&mut self, out: &mut Writer, src: u8, loc: Loc)
        ensures { Does out.old self.old (save_to src loc) out.new self.new }
    {
        self.ensure_complex(out, src);
        save_lines(out, src, loc);
        self.saved(loc);
    }

    // `call_funclet("@complex_root")`
    pub fn call_root(&mut self, out: &mut Writer)
        ensures { Does out.old self.old call_root out.new self.new }
    {
        out.push_call(1);
        self.set_reg_complex(RET);
    }

    pub fn set_label(&mut self, out: &mut Writer, label: u8)
        ensures { Does out.old self.old (set_label label) out.new self.new }
    {
        out.push_label(label);
    }

    pub fn branch(&mut self, out: &mut Writer, label: u8)
        ensures { Does out.old self.old (branch label) out.new self.new }
    {
        out.push_branch(label);
    }

    pub fn branch_if(&mut self, out: &mut Writer, cond: u8, label: u8, is_else: bool)
        ensures { Does out.old self.old (branch_if cond label is_else) out.new self.new }
    {
        out.push_branch_if(re(cond), label, is_else);
    }
}
