// Parts: a listing register as a half of a sheet's register, or by its own number.
ghost use Rattle.std.specs.Prelude.{◌≡◌};
ghost use Rattle.lines.specs.Parts.{part_of};

use mir::registers::{im, re};

#[derive(Clone, Copy)]
pub enum Part {
    Re(u8),
    Im(u8),
    Reg(u8),
}

// The scratch registers.
pub const T0: Part = Part::Reg(2);

pub const T1: Part = Part::Reg(3);

// The halves of a sheet's Ret and Temp.
pub const RET_RE: Part = Part::Reg(64);

pub const RET_IM: Part = Part::Reg(65);

pub const TEMP_RE: Part = Part::Reg(0);

pub const TEMP_IM: Part = Part::Reg(1);

impl Part {
    // The listing register that a part names.
    pub fn number(self) -> u8
        ensures { result ≡ part_of self }
    {
        match self {
            Part::Re(r) => re(r),
            Part::Im(r) => im(r),
            Part::Reg(n) => n,
        }
    }
}
