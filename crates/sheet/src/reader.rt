// A sheet's instruction, read at a position.
ghost use Rattle.std.specs.Prelude.{◌≡◌};
ghost use Rattle.mir.specs.Read.{got};
ghost use Rattle.mir.specs.Refusal.{as_read};
ghost use Rattle.mir.specs.Decode.{as_next};
ghost use Rattle.sheet.specs.Instruction.{load_math_from, load_const_math_from, own_label, branch_if_from, fields_from, instruction_from, instruction_at};

use kinds::{
    read_bi, read_fused, read_if_else, read_load, read_load_const, read_mov, read_save, read_uni,
};
use mir::fields::{above, byte, read_head, read_place, u16_at};
use mir::ops::read_operation;
use mir::records::Instruction;
use mir::refusal::Refusal;

// The last of a sheet's registers, Temp.
const LAST: u8 = 31;

// The first label of a sheet's own.
const FIRST_LABEL: u8 = 3;

// The most instructions that a sheet may have: the one with this index is refused by 14.
pub const LONGEST: usize = 612;

#[tactic(auto, unfolding(crate::specs::Instruction::load_math_from))]
fn read_load_math(s: &[u8]) -> Result<Instruction, Refusal>
    ensures { as_read result ≡ load_math_from s.now }
{
    let op = read_operation(byte(s, 4), false)?;
    if above(s, 5, 2, LAST) {
        return Err(Refusal::BadRegister);
    }
    let loc = read_place(s, 7)?;
    Ok(Instruction::LoadMath {
        op,
        dst: byte(s, 5),
        s1: byte(s, 6),
        loc,
    })
}

#[tactic(auto, unfolding(crate::specs::Instruction::load_const_math_from))]
fn read_load_const_math(s: &[u8], count: usize) -> Result<Instruction, Refusal>
    ensures { as_read result ≡ load_const_math_from count s.now }
{
    let op = read_operation(byte(s, 4), false)?;
    if above(s, 5, 2, LAST) {
        return Err(Refusal::BadRegister);
    }
    let idx = u16_at(s, 7);
    if count <= idx as usize {
        return Err(Refusal::MissingConstant);
    }
    Ok(Instruction::LoadConstMath {
        op,
        dst: byte(s, 5),
        s1: byte(s, 6),
        idx,
    })
}

// A label of the sheet's own.
fn own_label(label: u8) -> Result<u8, Refusal>
    ensures { as_read result ≡ own_label label (got label) }
{
    if label < FIRST_LABEL {
        return Err(Refusal::MisplacedLabel);
    }
    Ok(label)
}

#[tactic(auto, unfolding(crate::specs::Instruction::branch_if_from))]
fn read_branch_if(s: &[u8]) -> Result<Instruction, Refusal>
    ensures { as_read result ≡ branch_if_from s.now }
{
    if above(s, 4, 1, LAST) {
        return Err(Refusal::BadRegister);
    }
    let label = own_label(byte(s, 5))?;
    let flag = byte(s, 6);
    if 1 < flag {
        return Err(Refusal::MisplacedLabel);
    }
    Ok(Instruction::BranchIf {
        cond: byte(s, 4),
        label,
        is_else: flag == 1,
    })
}

// The fields of a kind.
#[tactic(auto, unfolding(crate::specs::Instruction::fields_from, crate::specs::Instruction::label_from, crate::specs::Instruction::branch_from))]
fn read_fields(s: &[u8], kind: u16, count: usize) -> Result<Instruction, Refusal>
    ensures { as_read result ≡ fields_from count kind s.now }
{
    match kind {
        0 => Ok(Instruction::Nop),
        1 => read_uni(s, read_operation(byte(s, 4), false), false),
        2 => read_bi(s, read_operation(byte(s, 4), false), false),
        3 => read_mov(s, false),
        4 => read_load(s, false),
        5 => read_save(s, false),
        6 => read_load_const(s, count, false),
        7 => read_fused(s, read_operation(byte(s, 4), false), false),
        8 => read_if_else(s, false),
        9 => read_load_math(s),
        10 => read_load_const_math(s, count),
        14 => Ok(Instruction::Label(own_label(byte(s, 4))?)),
        15 => Ok(Instruction::Branch(own_label(byte(s, 4))?)),
        17 => read_branch_if(s),
        _ => Err(Refusal::UnknownWork),
    }
}

// The instruction that bytes begin with.
#[tactic(auto, unfolding(crate::specs::Instruction::instruction_from))]
fn read_first(s: &[u8], count: usize) -> Result<Instruction, Refusal>
    ensures { as_read result ≡ instruction_from count s.now }
{
    let kind = read_head(s, false)?;
    read_fields(s, kind, count)
}

// The instruction at a position, and the position after it. `count` is the count of the sheet's own constants.
pub fn read_instruction(
    sheet: &[u8],
    at: usize,
    count: usize,
) -> Result<(Instruction, usize), Refusal>
    ensures { as_next result ≡ instruction_at count sheet.now at }
{
    if sheet.len() < at {
        return Err(Refusal::TornRecord);
    }
    let s = &sheet[at..];
    let instruction = read_first(s, count)?;
    let n = u16_at(s, 0);
    Ok((instruction, at + n as usize))
}
