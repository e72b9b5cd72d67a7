// Registers by number. A sheet's are 0 to 29 general, 30 Ret and 31 Temp; a listing's are 0 to 63 general, 64 Ret and 65 Temp.
ghost use Rattle.std.specs.Prelude.{◌≡◌};
ghost use Rattle.mir.specs.Register as Register;

// A sheet's Ret and Temp.
pub const RET: u8 = 30;

pub const TEMP: u8 = 31;

// The listing register of the real half of a sheet's register.
#[tactic(auto, unfolding(crate::specs::Register::re))]
pub fn re(r: u8) -> u8
    ensures { result ≡ Register.re r }
{
    if r < 30 {
        return 4 + 2 * r;
    }
    if r == 30 { 64 } else { 0 }
}

// The listing register of the imaginary half of a sheet's register.
#[tactic(auto, unfolding(crate::specs::Register::im))]
pub fn im(r: u8) -> u8
    ensures { result ≡ Register.im r }
{
    if r < 30 {
        return 5 + 2 * r;
    }
    if r == 30 { 65 } else { 1 }
}
