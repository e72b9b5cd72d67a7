// The kinds that sheets and listings share, read from the bytes that begin with the record, as a sheet's instruction over the registers of
// either. `listing` tells a listing from a sheet; the operation is found by the caller.
#![tactic(auto)]

ghost use Rattle.std.specs.Prelude.{◌≡◌};
ghost use Rattle.mir.specs.Kinds.{last_register, mov_from, load_from, save_from, load_const_from, if_else_from};
ghost use Rattle.mir.specs.Refusal.{as_read};
ghost use Rattle.mir.specs.declared.records.Instruction.{Instruction};
ghost use Rattle.kinds.specs.Answer.{uni_behind, bi_behind, fused_behind};

use mir::fields::{above, byte, read_cond_place, read_place, read_save_place, u16_at};
use mir::ops::{BinOp, FusedOp, UniOp};
use mir::records::Instruction;
use mir::refusal::Refusal;

// The last register, Temp.
fn last_register(listing: bool) -> u8
    ensures { result ≡ last_register «listing» }
{
    if listing { 65 } else { 31 }
}

// Kind 1.
pub fn read_uni(
    s: &[u8],
    found: Result<UniOp, Refusal>,
    listing: bool,
) -> Result<Instruction, Refusal>
    ensures { as_read result ≡ uni_behind «listing» (as_read found) s.now }
{
    let op = found?;
    if above(s, 5, 2, last_register(listing)) {
        return Err(Refusal::BadRegister);
    }
    Ok(Instruction::Uni {
        op,
        dst: byte(s, 5),
        s1: byte(s, 6),
    })
}

// Kind 2.
pub fn read_bi(
    s: &[u8],
    found: Result<BinOp, Refusal>,
    listing: bool,
) -> Result<Instruction, Refusal>
    ensures { as_read result ≡ bi_behind «listing» (as_read found) s.now }
{
    let op = found?;
    if above(s, 5, 3, last_register(listing)) {
        return Err(Refusal::BadRegister);
    }
    Ok(Instruction::Bi {
        op,
        dst: byte(s, 5),
        s1: byte(s, 6),
        s2: byte(s, 7),
    })
}

// Kind 3.
#[tactic(auto, unfolding(mir::specs::Kinds::mov_from))]
pub fn read_mov(s: &[u8], listing: bool) -> Result<Instruction, Refusal>
    ensures { as_read result ≡ mov_from «listing» Instruction.Mov s.now }
{
    if above(s, 4, 2, last_register(listing)) {
        return Err(Refusal::BadRegister);
    }
    Ok(Instruction::Mov {
        dst: byte(s, 4),
        s1: byte(s, 5),
    })
}

// Kind 4.
#[tactic(auto, unfolding(mir::specs::Kinds::load_from))]
pub fn read_load(s: &[u8], listing: bool) -> Result<Instruction, Refusal>
    ensures { as_read result ≡ load_from «listing» Instruction.Load s.now }
{
    if above(s, 4, 1, last_register(listing)) {
        return Err(Refusal::BadRegister);
    }
    let loc = read_place(s, 5)?;
    Ok(Instruction::Load {
        dst: byte(s, 4),
        loc,
    })
}

// Kind 5.
#[tactic(auto, unfolding(mir::specs::Kinds::save_from))]
pub fn read_save(s: &[u8], listing: bool) -> Result<Instruction, Refusal>
    ensures { as_read result ≡ save_from «listing» Instruction.Save s.now }
{
    if above(s, 4, 1, last_register(listing)) {
        return Err(Refusal::BadRegister);
    }
    let loc = read_save_place(s, 5)?;
    Ok(Instruction::Save {
        src: byte(s, 4),
        loc,
    })
}

// Kind 6.
#[tactic(auto, unfolding(mir::specs::Kinds::load_const_from))]
pub fn read_load_const(s: &[u8], count: usize, listing: bool) -> Result<Instruction, Refusal>
    ensures { as_read result ≡ load_const_from «listing» Instruction.LoadConst count s.now }
{
    if above(s, 4, 1, last_register(listing)) {
        return Err(Refusal::BadRegister);
    }
    let idx = u16_at(s, 5);
    if count <= idx as usize {
        return Err(Refusal::MissingConstant);
    }
    Ok(Instruction::LoadConst {
        dst: byte(s, 4),
        idx,
    })
}

// Kind 7.
pub fn read_fused(
    s: &[u8],
    found: Result<FusedOp, Refusal>,
    listing: bool,
) -> Result<Instruction, Refusal>
    ensures { as_read result ≡ fused_behind «listing» (as_read found) s.now }
{
    let op = found?;
    if above(s, 5, 4, last_register(listing)) {
        return Err(Refusal::BadRegister);
    }
    Ok(Instruction::Fused {
        op,
        dst: byte(s, 5),
        a: byte(s, 6),
        b: byte(s, 7),
        c: byte(s, 8),
    })
}

// Kind 8.
#[tactic(auto, unfolding(mir::specs::Kinds::if_else_from))]
pub fn read_if_else(s: &[u8], listing: bool) -> Result<Instruction, Refusal>
    ensures { as_read result ≡ if_else_from «listing» Instruction.IfElse s.now }
{
    if above(s, 4, 3, last_register(listing)) {
        return Err(Refusal::BadRegister);
    }
    let cond = read_cond_place(s, 7)?;
    Ok(Instruction::IfElse {
        dst: byte(s, 4),
        true_val: byte(s, 5),
        false_val: byte(s, 6),
        cond,
    })
}
