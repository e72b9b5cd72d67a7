// mir.rs's `rerun`: which method an instruction of a sheet calls.
ghost use Rattle.std.specs.Prelude.{◌≤◌, cond, length, eqb};
ghost use Rattle.mir.specs.Encode.{buf};
ghost use Rattle.mir.specs.Register.{Temp};
ghost use Rattle.lowering.specs.Complexifier as Spec;
ghost use Rattle.lowering.specs.Rerun.{compare_zero, rerun_uni, rerun_bin, rerun_arith, rerun};
ghost use Rattle.complexifier.specs.Does.{Does};
ghost use Rattle.rerun.specs.Adds.{Adds};
ghost use Rattle.rerun.specs.Ends.{Ends, tabled};

use super::methods::{abs, divide, real_root, recip, root};
use super::output::{Added, Output, nothing};
use complexifier::state::Complexifier;
use mir::ops::{ArithOp, BinOp, UniOp};
use mir::records::Instruction;
use mir::registers::TEMP;
use mir::writer::Writer;
use sheet::setup::Mode;

// IsZero, IsNotZero: Temp made zero, then `eq` or `neq` with it.
fn compare_zero(low: &mut Complexifier, out: &mut Writer, op: BinOp, join: BinOp, dst: u8, s1: u8)
    ensures { Does out.old low.old (compare_zero op join dst s1) out.new low.new }
{
    low.bits(out, BinOp::Xor, TEMP, TEMP, TEMP);
    low.compare(out, op, join, dst, s1, TEMP)
}

// Mov: of a register to itself it lists nothing.
fn rerun_mov(low: &mut Complexifier, out: &mut Writer, dst: u8, s1: u8)
    ensures { Does out.old low.old (λ s. cond (eqb dst s1) (Spec.unlisted s) (Spec.fmov dst s1 s)) out.new low.new }
{
    if dst != s1 {
        low.fmov(out, dst, s1);
    }
}

fn rerun_uni(
    low: &mut Complexifier,
    constants: &[u64],
    mode: Mode,
    out: &mut Writer,
    op: UniOp,
    dst: u8,
    s1: u8,
) -> Added
    requires { length constants.now ≤ 256 }
    ensures { Adds out.old low.old constants.now (rerun_uni mode op dst s1) out.new low.new result }
{
    let stable = mode.is_stable();
    match op {
        UniOp::Abs => return abs(low, constants, stable, out, dst, s1),
        UniOp::Root => return root(low, constants, stable, out, dst, s1),
        UniOp::RealRoot => return real_root(low, constants, stable, out, dst, s1),
        UniOp::Recip => return recip(low, constants, stable, out, dst, s1),
        UniOp::Neg | UniOp::Round | UniOp::Floor | UniOp::Ceiling | UniOp::Trunc | UniOp::Sign =>
            low.each(out, op, dst, s1),
        UniOp::Not => low.not(out, dst, s1),
        UniOp::Real => low.real(out, dst, s1),
        UniOp::Imaginary => low.imaginary(out, dst, s1),
        UniOp::Conjugate => low.conjugate(out, dst, s1),
        UniOp::Half => low.half(out, mode, dst, s1),
        UniOp::IsZero => compare_zero(low, out, BinOp::Equal, BinOp::And, dst, s1),
        UniOp::IsNotZero => compare_zero(low, out, BinOp::NotEqual, BinOp::Or, dst, s1),
        UniOp::Abs2 => low.abs2(out, dst, s1),
        UniOp::TimesI => low.times_i(out, dst, s1),
        UniOp::TimesNegI => low.times_neg_i(out, dst, s1),
    }
    nothing()
}

fn rerun_bin(
    low: &mut Complexifier,
    constants: &[u64],
    mode: Mode,
    out: &mut Writer,
    op: BinOp,
    dst: u8,
    s1: u8,
    s2: u8,
) -> Added
    requires { length constants.now ≤ 256 }
    ensures { Adds out.old low.old constants.now (rerun_bin mode op dst s1 s2) out.new low.new result }
{
    match op {
        BinOp::Plus => low.plus(out, dst, s1, s2),
        BinOp::Minus => low.minus(out, dst, s1, s2),
        BinOp::Times => low.times(out, dst, s1, s2),
        BinOp::Divide => return divide(low, constants, mode, out, dst, s1, s2),
        BinOp::GreaterThan | BinOp::GreaterThanEqual | BinOp::LittleThan | BinOp::LittleThanEqual =>
            low.order(out, op, dst, s1, s2),
        BinOp::Equal => low.compare(out, BinOp::Equal, BinOp::And, dst, s1, s2),
        BinOp::NotEqual => low.compare(out, BinOp::NotEqual, BinOp::Or, dst, s1, s2),
        BinOp::And | BinOp::Or | BinOp::Xor => low.bits(out, op, dst, s1, s2),
        BinOp::AndNot => {}
        BinOp::Complex => low.complex(out, dst, s1, s2),
    }
    nothing()
}

// The arithmetic of LoadMath and LoadConstMath, behind the load into Temp.
fn rerun_arith(
    low: &mut Complexifier,
    constants: &[u64],
    mode: Mode,
    out: &mut Writer,
    op: ArithOp,
    dst: u8,
    s1: u8,
) -> Added
    requires { length constants.now ≤ 256 }
    ensures { Adds out.old low.old constants.now (rerun_arith mode op dst s1 Temp) out.new low.new result }
{
    match op {
        ArithOp::Plus => low.plus(out, dst, s1, TEMP),
        ArithOp::Minus => low.minus(out, dst, s1, TEMP),
        ArithOp::Times => low.times(out, dst, s1, TEMP),
        ArithOp::Divide => return divide(low, constants, mode, out, dst, s1, TEMP),
    }
    nothing()
}

// One turn of `rerun`, with no more constants than a table holds.
fn rerun_within(
    low: &mut Complexifier,
    constants: &[u64],
    mode: Mode,
    out: &mut Writer,
    instruction: Instruction,
) -> Added
    requires { length constants.now ≤ 256 }
    ensures { Adds out.old low.old constants.now (rerun mode instruction) out.new low.new result }
{
    match instruction {
        Instruction::Nop => {}
        Instruction::Uni { op, dst, s1 } => return rerun_uni(
            low, constants, mode, out, op, dst, s1,
        ),
        Instruction::Bi { op, dst, s1, s2 } => return rerun_bin(
            low, constants, mode, out, op, dst, s1, s2,
        ),
        Instruction::Mov { dst, s1 } => rerun_mov(low, out, dst, s1),
        Instruction::Load { dst, loc } => low.load_from(out, dst, loc),
        Instruction::Save { src, loc } => low.save_to(out, src, loc),
        Instruction::LoadConst { dst, idx } => low.load_const(out, dst, idx),
        Instruction::Fused { op, dst, a, b, c } => low.rerun_fused(out, op, dst, a, b, c),
        Instruction::IfElse {
            dst,
            true_val,
            false_val,
            cond,
        } => low.ifelse(out, dst, true_val, false_val, cond),
        Instruction::LoadMath { op, dst, s1, loc } => {
            low.load_from(out, TEMP, loc);
            return rerun_arith(low, constants, mode, out, op, dst, s1);
        }
        Instruction::LoadConstMath { op, dst, s1, idx } => {
            low.load_const(out, TEMP, idx);
            return rerun_arith(low, constants, mode, out, op, dst, s1);
        }
        Instruction::Label(label) => low.set_label(out, label),
        Instruction::Branch(label) => low.branch(out, label),
        Instruction::BranchIf {
            cond,
            label,
            is_else,
        } => low.branch_if(out, cond, label, is_else),
    }
    nothing()
}

// One turn of `rerun`; with more constants than a table holds it lists nothing.
pub fn rerun(
    low: Complexifier,
    constants: &[u64],
    mode: Mode,
    out: &mut [u8],
    at: usize,
    instruction: Instruction,
) -> Output
    ensures { Ends (buf out.old at) low constants.now (tabled (rerun mode instruction)) out.new result }
{
    if 256 < constants.len() {
        return Output {
            low,
            at,
            added: nothing(),
        };
    }
    let mut low = low;
    let mut writer = Writer::new(out, at);
    let added = rerun_within(&mut low, constants, mode, &mut writer, instruction);
    Output {
        low,
        at: writer.at,
        added,
    }
}
