// The length of a record, by its kind.
ghost use Rattle.std.specs.Prelude.{◌≡◌};
ghost use Rattle.mir.specs.Length.{length_of};

// Kinds 0 to 17: Nop, Uni, Bi, Mov, Load, Save, LoadConst, Fused, IfElse, LoadMath, LoadConstMath, LoadComplex, SaveComplex,
// ComplexBi, Label, Branch, Call, BranchIf.
pub const LENGTHS: [u8; 18] = [4, 7, 8, 6, 8, 8, 7, 9, 10, 10, 9, 9, 9, 11, 5, 5, 5, 7];

// The length of a record of a kind; 0 of a number that is no kind.
#[tactic(auto, unfolding(crate::specs::Length::length_of, crate::specs::Length::lengths))]
pub fn length_of(kind: u16) -> u8
    ensures { result ≡ length_of kind }
{
    let i = kind as usize;
    if i < 18 { LENGTHS[i] } else { 0 }
}
