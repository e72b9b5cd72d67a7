// Which registers and places are recorded as real: complexify.rs's `real_regs` and `real_locs`. The record is a value; its methods return it.
ghost use Rattle.std.specs.Prelude.{◌≡◌};
ghost use Rattle.lowering.specs.Realness as Spec;

use mir::records::Loc;

#[derive(Clone, Copy)]
pub struct Realness {
    // By sheet register: recorded as real.
    pub regs: [bool; 32],
    // A bit for each Stack place, then one for each Param place, as in a sheet's header.
    pub places: [u8; 64],
}

// Bit i mod 8 of byte i div 8; no bit past the end.
pub fn bit_at(places: [u8; 64], i: usize) -> bool
    ensures { result ≡ Spec.bit_at places i }
{
    let at = i / 8;
    at < 64 && (places[at] >> (i % 8)) & 1 == 1
}

// The bytes with that bit cleared.
pub fn clear_at(mut places: [u8; 64], i: usize) -> [u8; 64]
    ensures { result ≡ Spec.clear_at places i }
{
    let at = i / 8;
    if at < 64 {
        places[at] &= !(1 << (i % 8));
    }
    places
}

impl Realness {
    // Every register starts recorded as complex.
    pub fn fresh(places: [u8; 64]) -> Realness
        ensures { result ≡ Spec.fresh places }
    {
        let regs = [false; 32];
        Realness {
            regs: regs,
            places: places,
        }
    }

    pub fn is_real_reg(self, r: u8) -> bool
        ensures { result ≡ Spec.is_real_reg self r }
    {
        let i = r as usize;
        i < 32 && self.regs[i]
    }

    #[tactic(auto, unfolding(crate::specs::Realness::is_real_loc))]
    pub fn is_real_loc(self, loc: Loc) -> bool
        ensures { result ≡ Spec.is_real_loc self.places loc }
    {
        match loc {
            Loc::Stack(i) => bit_at(self.places, i as usize),
            Loc::Mem(_) => false,
            Loc::Param(i) => bit_at(self.places, 256 + i as usize),
        }
    }

    // A register recorded as real, or as complex.
    pub fn set_reg(mut self, r: u8, real: bool) -> Realness
        ensures { result ≡ Spec.set_reg self r real }
    {
        let i = r as usize;
        if i < 32 {
            self.regs[i] = real;
        }
        self
    }

    pub fn set_reg_real(self, dst: u8) -> Realness
        ensures { result ≡ Spec.set_reg_real self dst }
    {
        self.set_reg(dst, true)
    }

    pub fn set_reg_complex(self, dst: u8) -> Realness
        ensures { result ≡ Spec.set_reg_complex self dst }
    {
        self.set_reg(dst, false)
    }

    pub fn copy_real(self, dst: u8, s1: u8) -> Realness
        ensures { result ≡ Spec.copy_real self dst s1 }
    {
        let real = self.is_real_reg(s1);
        self.set_reg(dst, real)
    }

    pub fn promote_real(self, dst: u8, s1: u8, s2: u8) -> Realness
        ensures { result ≡ Spec.promote_real self dst s1 s2 }
    {
        let both = self.is_real_reg(s1) && self.is_real_reg(s2);
        self.set_reg(dst, both)
    }

    #[tactic(auto, unfolding(crate::specs::Realness::without_loc))]
    pub fn set_loc_complex(mut self, loc: Loc) -> Realness
        ensures { result ≡ Spec.set_loc_complex self loc }
    {
        match loc {
            Loc::Stack(i) => self.places = clear_at(self.places, i as usize),
            Loc::Mem(_) => {}
            Loc::Param(i) => self.places = clear_at(self.places, 256 + i as usize),
        }
        self
    }
}
