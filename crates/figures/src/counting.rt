// What the records in the stage take, counted by a walk over their lengths and kinds.
ghost use Rattle.std.specs.Prelude.{◌≡◌, ◌≤◌};
ghost use Rattle.lowering.specs.Labels.{role};
ghost use Rattle.figures.specs.Shelf.{branch_of};
ghost use Rattle.figures.specs.Walk.{calls_of, block_step, StagedBytes, CountWithin, Counts};

use mir::fields::byte;
use mir::records::Instruction;

// The kinds that the walk tells apart.
const LABEL: u8 = 14;

const CALL: u8 = 16;

// What the instructions so far take: bytes, records, Calls, and the records of the block (0: none stands yet); how many of them branch.
#[derive(Clone, Copy)]
pub struct Count {
    pub bytes: usize,
    pub records: usize,
    pub calls: usize,
    pub block: usize,
    pub branches: usize,
}

// Where a record stands to the block: before its Label 1, directly behind the Label or its working records, or further on.
#[derive(Clone, Copy)]
pub enum BlockPart {
    Before,
    Inside,
    Behind,
}

// How many records of the block a record adds, and where the next one stands.
#[derive(Clone, Copy)]
pub struct BlockStep {
    pub adds: usize,
    pub next: BlockPart,
}

// 1 for a Branch or BranchIf of the sheet.
pub(crate) fn branch_of(instruction: Instruction) -> usize
    ensures { result ≡ branch_of (role instruction) }
{
    match instruction {
        Instruction::Nop => 0,
        Instruction::Uni { op, dst, s1 } => 0,
        Instruction::Bi { op, dst, s1, s2 } => 0,
        Instruction::Mov { dst, s1 } => 0,
        Instruction::Load { dst, loc } => 0,
        Instruction::Save { src, loc } => 0,
        Instruction::LoadConst { dst, idx } => 0,
        Instruction::Fused { op, dst, a, b, c } => 0,
        Instruction::IfElse {
            dst,
            true_val,
            false_val,
            cond,
        } => 0,
        Instruction::LoadMath { op, dst, s1, loc } => 0,
        Instruction::LoadConstMath { op, dst, s1, idx } => 0,
        Instruction::Label(label) => 0,
        Instruction::Branch(label) => 1,
        Instruction::BranchIf {
            cond,
            label,
            is_else,
        } => 1,
    }
}

fn calls_of(kind: u8) -> usize
    ensures { result ≡ calls_of kind }
{
    if kind == CALL { 1 } else { 0 }
}

// What a record adds to the block's, and where the next one stands: Label 1 opens the block and stands for the Branch 0 that ends it, too.
fn block_step(part: BlockPart, kind: u8, label: u8) -> BlockStep
    ensures { result ≡ block_step part kind label }
{
    match part {
        BlockPart::Before => {
            if kind == LABEL {
                if label == 1 {
                    return BlockStep {
                        adds: 2,
                        next: BlockPart::Inside,
                    };
                }
            }
            BlockStep {
                adds: 0,
                next: BlockPart::Before,
            }
        }
        BlockPart::Inside => {
            if kind < LABEL {
                return BlockStep {
                    adds: 1,
                    next: BlockPart::Inside,
                };
            }
            BlockStep {
                adds: 0,
                next: BlockPart::Behind,
            }
        }
        BlockPart::Behind => BlockStep {
            adds: 0,
            next: BlockPart::Behind,
        },
    }
}

// The records of one instruction more, from their bytes; `branches` is 1 where it branches.
pub(crate) fn count_records(bytes: &[u8], branches: usize, before: Count) -> Count
    requires staged_bytes { StagedBytes bytes.now }
    requires count_within { CountWithin before }
    requires branches_bound { branches ≤ 1 }
    ensures { Counts bytes.now branches before result }
{
    // By position: a turn passes over a record, whose length differs.
    let mut at: usize = 0;
    let mut records = before.records;
    let mut calls = before.calls;
    let mut block = before.block;
    let mut part = BlockPart::Before;
    while at < bytes.len() {
        let n = byte(bytes, at);
        let kind = byte(bytes, at + 2);
        let label = byte(bytes, at + 4);
        records += 1;
        calls += calls_of(kind);
        let step = block_step(part, kind, label);
        block += step.adds;
        part = step.next;
        at += n as usize;
    }
    Count {
        bytes: before.bytes + bytes.len(),
        records: records,
        calls: calls,
        block: block,
        branches: before.branches + branches,
    }
}
