// The lines of a sheet's text.
ghost use Rattle.std.specs.Prelude.{◌≡◌};
ghost use Rattle.text.specs.Line.{Adds, Prints};
ghost use Rattle.mir.specs.declared.records.Instruction.{Instruction};
ghost use Rattle.assembly.specs.Lines.{mode_line, real_place, real_line, constant_line, named, math_name, work_line, instruction_line, refused_text, long_text};

use mir::ops::{ArithOp, Operation};
use mir::records::{Instruction, Loc, Record, Work};
use sheet::setup::Mode;
use text::line::{Line, empty_line};
use text::lines::record_line;

pub fn mode_line(mode: Mode) -> Line
    ensures { Prints (mode_line mode) result }
{
    match mode {
        Mode::Plain => empty_line().text(b"mode plain\n"),
        Mode::Stable => empty_line().text(b"mode stable\n"),
        Mode::Minding => empty_line().text(b"mode minding\n"),
    }
}

// The place of a bit of a header's realness.
fn real_place(i: u16) -> Loc
    ensures { result ≡ real_place i }
{
    if i < 256 {
        return Loc::Stack(i);
    }
    Loc::Param(i - 256)
}

pub fn real_line(i: u16) -> Line
    ensures { Prints (real_line i) result }
{
    empty_line().text(b"real").place(real_place(i)).byte(b'\n')
}

pub fn constant_line(word: u64) -> Line
    ensures { Prints (constant_line word) result }
{
    empty_line().text(b"constant ").hex(word).byte(b'\n')
}

// A sheet's register by the number under which a listing has its name.
fn name(r: u8) -> u8
    ensures { result ≡ named r }
{
    if r == 30 {
        return 64;
    }
    if r == 31 { 65 } else { r }
}

fn math_name(line: Line, op: ArithOp) -> Line
    ensures { Adds line (math_name op) result }
{
    line.name_in(&["Plus", "Minus", "Times", "Divide"], op.number() as u64)
}

fn work_line(work: Work) -> Line
    ensures { Prints (work_line work) result }
{
    record_line(Record::Work(work))
}

fn load_math_line(op: ArithOp, dst: u8, s1: u8, loc: Loc) -> Line
    ensures { Prints (instruction_line (Instruction.LoadMath op dst s1 loc)) result }
{
    math_name(empty_line(), op)
        .text(b"Load")
        .registers(&[name(dst), name(s1)])
        .place(loc)
        .byte(b'\n')
}

fn load_const_math_line(op: ArithOp, dst: u8, s1: u8, idx: u16) -> Line
    ensures { Prints (instruction_line (Instruction.LoadConstMath op dst s1 idx)) result }
{
    math_name(empty_line(), op)
        .text(b"Const")
        .registers(&[name(dst), name(s1)])
        .number(idx as u64)
        .byte(b'\n')
}

pub fn instruction_line(instruction: Instruction) -> Line
    ensures { Prints (instruction_line instruction) result }
{
    match instruction {
        Instruction::Nop => empty_line().text(b"Nop\n"),
        Instruction::Uni { op, dst, s1 } => work_line(Work::Uni {
            op: op,
            dst: name(dst),
            s1: name(s1),
        }),
        Instruction::Bi { op, dst, s1, s2 } => work_line(Work::Bi {
            op: op,
            dst: name(dst),
            s1: name(s1),
            s2: name(s2),
        }),
        Instruction::Mov { dst, s1 } => work_line(Work::Mov {
            dst: name(dst),
            s1: name(s1),
        }),
        Instruction::Load { dst, loc } => work_line(Work::Load {
            dst: name(dst),
            loc: loc,
        }),
        Instruction::Save { src, loc } => work_line(Work::Save {
            src: name(src),
            loc: loc,
        }),
        Instruction::LoadConst { dst, idx } => work_line(Work::LoadConst {
            dst: name(dst),
            idx: idx,
        }),
        Instruction::Fused { op, dst, a, b, c } => work_line(Work::Fused {
            op: op,
            dst: name(dst),
            a: name(a),
            b: name(b),
            c: name(c),
        }),
        Instruction::IfElse {
            dst,
            true_val,
            false_val,
            cond,
        } => work_line(Work::IfElse {
            dst: name(dst),
            true_val: name(true_val),
            false_val: name(false_val),
            cond: cond,
        }),
        Instruction::LoadMath { op, dst, s1, loc } => load_math_line(op, dst, s1, loc),
        Instruction::LoadConstMath { op, dst, s1, idx } => load_const_math_line(op, dst, s1, idx),
        Instruction::Label(l) => record_line(Record::Label(l)),
        Instruction::Branch(l) => record_line(Record::Branch(l)),
        Instruction::BranchIf {
            cond,
            label,
            is_else,
        } => record_line(Record::BranchIf {
            cond: name(cond),
            label: label,
            is_else: is_else,
        }),
    }
}

// The refusal of a text.
pub fn refused_line(number: u64, why: u8) -> Line
    ensures { Prints (refused_text number why) result }
{
    empty_line()
        .text(b"refused line")
        .number(number)
        .byte(b' ')
        .name_in(
            &[
                "",
                "no mode",
                "sheet full",
                "no such line",
                "sheet too long",
            ],
            why as u64,
        )
        .byte(b'\n')
}

// The refusal of a text that is too long.
pub fn long_line() -> Line
    ensures { Prints long_text result }
{
    empty_line().text(b"refused text of more than 500000 bytes\n")
}
