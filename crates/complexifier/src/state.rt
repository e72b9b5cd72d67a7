// What lowering carries from one instruction to the next, beside the constants, and what it records.
ghost use Rattle.std.specs.Prelude.{◌≡◌};
ghost use Rattle.lowering.specs.Realness as Spec;
ghost use Rattle.lowering.specs.Complexifier.{saved_realness};
ghost use Rattle.complexifier.specs.Does.{recorded};

use lowering::realness::Realness;
use mir::records::Loc;

#[derive(Clone, Copy)]
pub struct Complexifier {
    pub real: Realness,
    pub root_defined: bool,
}

impl Complexifier {
    pub fn is_real_reg(&self, r: u8) -> bool
        ensures { result ≡ Spec.is_real_reg self.now.real r }
    {
        self.real.is_real_reg(r)
    }

    pub fn is_real_loc(&self, loc: Loc) -> bool
        ensures { result ≡ Spec.is_real_loc self.now.real.places loc }
    {
        self.real.is_real_loc(loc)
    }

    // A register recorded as real, or as complex.
    pub fn set_reg(&mut self, dst: u8, real: bool)
        ensures { self.new ≡ recorded self.old (Spec.set_reg self.old.real dst real) }
    {
        self.real = self.real.set_reg(dst, real);
    }

    pub fn set_reg_real(&mut self, dst: u8)
        ensures { self.new ≡ recorded self.old (Spec.set_reg_real self.old.real dst) }
    {
        self.real = self.real.set_reg_real(dst);
    }

    pub fn set_reg_complex(&mut self, dst: u8)
        ensures { self.new ≡ recorded self.old (Spec.set_reg_complex self.old.real dst) }
    {
        self.real = self.real.set_reg_complex(dst);
    }

    pub fn copy_real(&mut self, dst: u8, s1: u8)
        ensures { self.new ≡ recorded self.old (Spec.copy_real self.old.real dst s1) }
    {
        self.real = self.real.copy_real(dst, s1);
    }

    pub fn promote_real(&mut self, dst: u8, s1: u8, s2: u8)
        ensures { self.new ≡ recorded self.old (Spec.promote_real self.old.real dst s1 s2) }
    {
        self.real = self.real.promote_real(dst, s1, s2);
    }

    // After a save: only a Stack place is recorded, and so removed.
    pub fn saved(&mut self, loc: Loc)
        ensures { self.new ≡ recorded self.old (saved_realness loc self.old.real) }
    {
        match loc {
            Loc::Stack(_) => self.real = self.real.set_loc_complex(loc),
            Loc::Mem(_) | Loc::Param(_) => {}
        }
    }
}
