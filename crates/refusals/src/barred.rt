// 6, a barred operand: where the Rust asserts.
ghost use Rattle.std.specs.Prelude.{◌≡◌, ◌&&◌};
ghost use Rattle.mir.specs.Register.{Temp};
ghost use Rattle.mir.specs.declared.ops.UniOp.{UniOp};
ghost use Rattle.lowering.specs.Lower as Spec;

use lowering::realness::Realness;
use mir::ops::{ArithOp, BinOp, UniOp};
use mir::records::Instruction;
use mir::registers::{RET, TEMP};

// Divide of a by b; real: b is recorded as real.
fn barred_divide(stable: bool, a: u8, b: u8, real: bool) -> bool
    ensures { result ≡ Spec.barred_divide stable a b real }
{
    if stable {
        if real {
            return false;
        }
        if a < 30 {
            return !(b < 30);
        }
        return true;
    }
    false
}

// Abs of a complex Ret. The record is asked for a, not for Ret: a flag at a fixed index would be split off each copy of the record.
fn barred_abs(stable: bool, a: u8, real: Realness) -> bool
    ensures { result ≡ Spec.barred_uni stable UniOp.Abs a real }
{
    let x = real.is_real_reg(a);
    if stable {
        if a == RET {
            return !x;
        }
        return false;
    }
    false
}

fn barred_uni(stable: bool, op: UniOp, a: u8, real: Realness) -> bool
    ensures { result ≡ Spec.barred_uni stable op a real }
{
    if matches!(op, UniOp::Abs) {
        return barred_abs(stable, a, real);
    }
    false
}

fn barred_bin(stable: bool, op: BinOp, a: u8, b: u8, real: Realness) -> bool
    ensures { result ≡ Spec.barred_bin stable op a b real }
{
    if matches!(op, BinOp::Divide) {
        let x = real.is_real_reg(b);
        return barred_divide(stable, a, b, x);
    }
    false
}

fn barred_load(stable: bool, op: ArithOp, a: u8, real: bool) -> bool
    ensures { result ≡ (Spec.is_divide op && Spec.barred_divide stable a Temp real) }
{
    match op {
        ArithOp::Plus => false,
        ArithOp::Minus => false,
        ArithOp::Times => false,
        ArithOp::Divide => barred_divide(stable, a, TEMP, real),
    }
}

pub fn barred(stable: bool, instruction: Instruction, real: Realness) -> bool
    ensures { result ≡ Spec.barred stable instruction real }
{
    match instruction {
        Instruction::Nop => false,
        Instruction::Uni { op, dst, s1 } => barred_uni(stable, op, s1, real),
        Instruction::Bi { op, dst, s1, s2 } => barred_bin(stable, op, s1, s2, real),
        Instruction::Mov { dst, s1 } => false,
        Instruction::Load { dst, loc } => false,
        Instruction::Save { src, loc } => false,
        Instruction::LoadConst { dst, idx } => false,
        Instruction::Fused { op, dst, a, b, c } => c == RET,
        Instruction::IfElse {
            dst,
            true_val,
            false_val,
            cond,
        } => false,
        Instruction::LoadMath { op, dst, s1, loc } => {
            let x = real.is_real_loc(loc);
            barred_load(stable, op, s1, x)
        }
        Instruction::LoadConstMath { op, dst, s1, idx } => false,
        Instruction::Label(label) => false,
        Instruction::Branch(label) => false,
        Instruction::BranchIf {
            cond,
            label,
            is_else,
        } => false,
    }
}
