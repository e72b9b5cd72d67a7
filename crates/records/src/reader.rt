// A listing's record, read at a position.
ghost use Rattle.std.specs.Prelude.{◌≡◌};
ghost use Rattle.mir.specs.Refusal.{as_read};
ghost use Rattle.mir.specs.Decode.{as_next};
ghost use Rattle.records.specs.Record.{load_complex_from, save_complex_from, complex_bi_from, label_from, branch_from, call_from, branch_if_from, fields_from, record_from, record_at};
ghost use Rattle.records.specs.Shared.{work_of, as_record};
ghost use Rattle.records.specs.Step.{step_from};

use kinds::{
    read_bi, read_fused, read_if_else, read_load, read_load_const, read_mov, read_save, read_uni,
};
use mir::fields::{above, byte, read_head, read_place, read_save_place, u16_at};
use mir::ops::read_operation;
use mir::records::{Instruction, Record, Work};
use mir::refusal::Refusal;

// The last of a listing's registers, Temp.
const LAST: u8 = 65;

// What a pass over a listing needs of a record: that it works on words, or how it directs the play and its label.
#[derive(Clone, Copy, PartialEq, Eq, Debug)]
pub enum Step {
    Work,
    Label(u8),
    Branch(u8),
    Call(u8),
    BranchIf(u8),
}

// The record of a kind that sheets share; of a sheet's own kinds, which a listing has not, any.
fn work_of(i: Instruction) -> Work
    ensures { result ≡ work_of i }
{
    match i {
        Instruction::Uni { op, dst, s1 } => Work::Uni {
            op: op,
            dst: dst,
            s1: s1,
        },
        Instruction::Bi { op, dst, s1, s2 } => Work::Bi {
            op: op,
            dst: dst,
            s1: s1,
            s2: s2,
        },
        Instruction::Mov { dst, s1 } => Work::Mov { dst: dst, s1: s1 },
        Instruction::Load { dst, loc } => Work::Load { dst: dst, loc: loc },
        Instruction::Save { src, loc } => Work::Save { src: src, loc: loc },
        Instruction::LoadConst { dst, idx } => Work::LoadConst { dst: dst, idx: idx },
        Instruction::Fused { op, dst, a, b, c } => Work::Fused {
            op: op,
            dst: dst,
            a: a,
            b: b,
            c: c,
        },
        Instruction::IfElse {
            dst,
            true_val,
            false_val,
            cond,
        } => Work::IfElse {
            dst: dst,
            true_val: true_val,
            false_val: false_val,
            cond: cond,
        },
        Instruction::Nop
        | Instruction::LoadMath { .. }
        | Instruction::LoadConstMath { .. }
        | Instruction::Label(_)
        | Instruction::Branch(_)
        | Instruction::BranchIf { .. } => Work::Mov { dst: 0, s1: 0 },
    }
}

// What was read of a kind that sheets share, as a record.
fn record_of(q: Result<Instruction, Refusal>) -> Result<Record, Refusal>
    ensures { as_read result ≡ as_record (as_read q) }
{
    let i = q?;
    Ok(Record::Work(work_of(i)))
}

#[tactic(auto, unfolding(crate::specs::Record::load_complex_from))]
fn read_load_complex(s: &[u8]) -> Result<Record, Refusal>
    ensures { as_read result ≡ load_complex_from s.now }
{
    if above(s, 4, 2, LAST) {
        return Err(Refusal::BadRegister);
    }
    let loc = read_place(s, 6)?;
    Ok(Record::Work(Work::LoadComplex {
        xd: byte(s, 4),
        yd: byte(s, 5),
        loc,
    }))
}

#[tactic(auto, unfolding(crate::specs::Record::save_complex_from))]
fn read_save_complex(s: &[u8]) -> Result<Record, Refusal>
    ensures { as_read result ≡ save_complex_from s.now }
{
    if above(s, 4, 2, LAST) {
        return Err(Refusal::BadRegister);
    }
    let loc = read_save_place(s, 6)?;
    Ok(Record::Work(Work::SaveComplex {
        xs: byte(s, 4),
        ys: byte(s, 5),
        loc,
    }))
}

#[tactic(auto, unfolding(crate::specs::Record::complex_bi_from))]
fn read_complex_bi(s: &[u8]) -> Result<Record, Refusal>
    ensures { as_read result ≡ complex_bi_from s.now }
{
    let op = read_operation(byte(s, 4), true)?;
    if above(s, 5, 6, LAST) {
        return Err(Refusal::BadRegister);
    }
    Ok(Record::Work(Work::ComplexBi {
        op,
        xd: byte(s, 5),
        yd: byte(s, 6),
        x1: byte(s, 7),
        y1: byte(s, 8),
        x2: byte(s, 9),
        y2: byte(s, 10),
    }))
}

#[tactic(auto, unfolding(crate::specs::Record::branch_if_from))]
fn read_branch_if(s: &[u8]) -> Result<Record, Refusal>
    ensures { as_read result ≡ branch_if_from s.now }
{
    let flag = byte(s, 6);
    if 1 < flag {
        return Err(Refusal::UnknownWork);
    }
    if above(s, 4, 1, LAST) {
        return Err(Refusal::BadRegister);
    }
    Ok(Record::BranchIf {
        cond: byte(s, 4),
        label: byte(s, 5),
        is_else: flag == 1,
    })
}

// The fields of a kind.
#[tactic(auto, unfolding(crate::specs::Record::fields_from, crate::specs::Record::label_from, crate::specs::Record::branch_from, crate::specs::Record::call_from))]
fn read_fields(s: &[u8], kind: u16, count: usize) -> Result<Record, Refusal>
    ensures { as_read result ≡ fields_from count kind s.now }
{
    match kind {
        1 => record_of(read_uni(s, read_operation(byte(s, 4), true), true)),
        2 => record_of(read_bi(s, read_operation(byte(s, 4), true), true)),
        3 => record_of(read_mov(s, true)),
        4 => record_of(read_load(s, true)),
        5 => record_of(read_save(s, true)),
        6 => record_of(read_load_const(s, count, true)),
        7 => record_of(read_fused(s, read_operation(byte(s, 4), true), true)),
        8 => record_of(read_if_else(s, true)),
        11 => read_load_complex(s),
        12 => read_save_complex(s),
        13 => read_complex_bi(s),
        14 => Ok(Record::Label(byte(s, 4))),
        15 => Ok(Record::Branch(byte(s, 4))),
        16 => Ok(Record::Call(byte(s, 4))),
        17 => read_branch_if(s),
        _ => Err(Refusal::UnknownWork),
    }
}

// The record that bytes begin with.
#[tactic(auto, unfolding(crate::specs::Record::record_from))]
fn read_first(s: &[u8], count: usize) -> Result<Record, Refusal>
    ensures { as_read result ≡ record_from count s.now }
{
    let kind = read_head(s, true)?;
    read_fields(s, kind, count)
}

// The record at a position, and the position after it. `count` is the count of the table lent with the listing.
pub fn read_record(listing: &[u8], at: usize, count: usize) -> Result<(Record, usize), Refusal>
    ensures { as_next result ≡ record_at count listing.now at }
{
    if listing.len() < at {
        return Err(Refusal::TornRecord);
    }
    let s = &listing[at..];
    let record = read_first(s, count)?;
    let n = u16_at(s, 0);
    Ok((record, at + n as usize))
}

// What a pass needs of what was read.
fn step_read(q: Result<Record, Refusal>) -> Result<Step, Refusal>
    ensures { as_read result ≡ step_from (as_read q) }
{
    match q? {
        Record::Work(_) => Ok(Step::Work),
        Record::Label(l) => Ok(Step::Label(l)),
        Record::Branch(l) => Ok(Step::Branch(l)),
        Record::Call(l) => Ok(Step::Call(l)),
        Record::BranchIf { label, .. } => Ok(Step::BranchIf(label)),
    }
}

// What a pass needs of a kind that sheets share.
fn step_work(q: Result<Instruction, Refusal>) -> Result<Step, Refusal>
    ensures { as_read result ≡ step_from (as_record (as_read q)) }
{
    let _ = q?;
    Ok(Step::Work)
}

// The step of a kind's fields.
#[tactic(auto, unfolding(crate::specs::Record::fields_from, crate::specs::Record::label_from, crate::specs::Record::branch_from, crate::specs::Record::call_from))]
fn step_fields(s: &[u8], kind: u16, count: usize) -> Result<Step, Refusal>
    ensures { as_read result ≡ step_from (fields_from count kind s.now) }
{
    match kind {
        1 => step_work(read_uni(s, read_operation(byte(s, 4), true), true)),
        2 => step_work(read_bi(s, read_operation(byte(s, 4), true), true)),
        3 => step_work(read_mov(s, true)),
        4 => step_work(read_load(s, true)),
        5 => step_work(read_save(s, true)),
        6 => step_work(read_load_const(s, count, true)),
        7 => step_work(read_fused(s, read_operation(byte(s, 4), true), true)),
        8 => step_work(read_if_else(s, true)),
        11 => step_read(read_load_complex(s)),
        12 => step_read(read_save_complex(s)),
        13 => step_read(read_complex_bi(s)),
        14 => Ok(Step::Label(byte(s, 4))),
        15 => Ok(Step::Branch(byte(s, 4))),
        16 => Ok(Step::Call(byte(s, 4))),
        17 => step_read(read_branch_if(s)),
        _ => Err(Refusal::UnknownWork),
    }
}

// The step of the record that bytes begin with.
#[tactic(auto, unfolding(crate::specs::Record::record_from))]
pub fn read_step(s: &[u8], count: usize) -> Result<Step, Refusal>
    ensures { as_read result ≡ step_from (record_from count s.now) }
{
    let kind = read_head(s, true)?;
    step_fields(s, kind, count)
}
