// The realness record, lent. What changes it calls the method of the by-value record and stores what that returns; what reads it
// calls the method on a copy.
#![tactic(auto)]

ghost use Rattle.std.specs.Prelude.{◌≡◌};
ghost use Rattle.lowering.specs.Realness as Spec;

use lowering::realness::Realness;
use mir::records::Loc;

// A register recorded as real, or as complex.
pub fn set_reg(realness: &mut Realness, r: u8, real: bool)
    ensures { realness.new ≡ Spec.set_reg realness.old r real }
{
    *realness = realness.set_reg(r, real);
}

pub fn set_reg_real(realness: &mut Realness, dst: u8)
    ensures { realness.new ≡ Spec.set_reg_real realness.old dst }
{
    *realness = realness.set_reg_real(dst);
}

pub fn set_reg_complex(realness: &mut Realness, dst: u8)
    ensures { realness.new ≡ Spec.set_reg_complex realness.old dst }
{
    *realness = realness.set_reg_complex(dst);
}

pub fn copy_real(realness: &mut Realness, dst: u8, s1: u8)
    ensures { realness.new ≡ Spec.copy_real realness.old dst s1 }
{
    *realness = realness.copy_real(dst, s1);
}

pub fn promote_real(realness: &mut Realness, dst: u8, s1: u8, s2: u8)
    ensures { realness.new ≡ Spec.promote_real realness.old dst s1 s2 }
{
    *realness = realness.promote_real(dst, s1, s2);
}

pub fn set_loc_complex(realness: &mut Realness, loc: Loc)
    ensures { realness.new ≡ Spec.set_loc_complex realness.old loc }
{
    *realness = realness.set_loc_complex(loc);
}

pub fn is_real_reg(realness: &Realness, r: u8) -> bool
    ensures { result ≡ Spec.is_real_reg realness.now r }
{
    realness.is_real_reg(r)
}

pub fn is_real_loc(realness: &Realness, loc: Loc) -> bool
    ensures { result ≡ Spec.is_real_loc realness.now.places loc }
{
    realness.is_real_loc(loc)
}
