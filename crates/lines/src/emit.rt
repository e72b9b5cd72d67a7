// One record of each kind, over parts or over a sheet's registers. Where there is no room for the record nothing is written, and the
// position stays.
ghost use Rattle.std.specs.Prelude.{[], ◌∷◌};
ghost use Rattle.mir.specs.declared.ops.FusedOp.{FusedOp};
ghost use Rattle.mir.specs.declared.records.Work.{Work};
ghost use Rattle.mir.specs.declared.records.Record.{Record};
ghost use Rattle.mir.specs.Register as Register;
ghost use Rattle.lines.specs.Parts.{part_of};
ghost use Rattle.mir.specs.Writing.{Lists};

use super::parts::Part;
use mir::ops::{ArithOp, BinOp, FusedOp, UniOp};
use mir::records::Loc;
use mir::registers::{im, re};
use mir::writer::Writer;

pub fn uni(out: &mut Writer, op: UniOp, dst: Part, s1: Part)
    ensures { Lists out.old (Record.Work (Work.Uni op (part_of dst) (part_of s1)) ∷ []) out.new }
{
    out.push_uni(op, dst.number(), s1.number())
}

pub fn bi(out: &mut Writer, op: BinOp, dst: Part, s1: Part, s2: Part)
    ensures { Lists out.old (Record.Work (Work.Bi op (part_of dst) (part_of s1) (part_of s2)) ∷ []) out.new }
{
    out.push_bi(op, dst.number(), s1.number(), s2.number())
}

pub fn mov(out: &mut Writer, dst: Part, s1: Part)
    ensures { Lists out.old (Record.Work (Work.Mov (part_of dst) (part_of s1)) ∷ []) out.new }
{
    out.push_mov(dst.number(), s1.number())
}

pub fn load(out: &mut Writer, dst: Part, loc: Loc)
    ensures { Lists out.old (Record.Work (Work.Load (part_of dst) loc) ∷ []) out.new }
{
    out.push_load(dst.number(), loc)
}

pub fn save(out: &mut Writer, src: Part, loc: Loc)
    ensures { Lists out.old (Record.Work (Work.Save (part_of src) loc) ∷ []) out.new }
{
    out.push_save(src.number(), loc)
}

pub fn load_const(out: &mut Writer, dst: Part, idx: u16)
    ensures { Lists out.old (Record.Work (Work.LoadConst (part_of dst) idx) ∷ []) out.new }
{
    out.push_load_const(dst.number(), idx)
}

pub fn fused_mul_add(out: &mut Writer, dst: Part, a: Part, b: Part, c: Part)
    ensures { Lists out.old (Record.Work (Work.Fused FusedOp.MulAdd (part_of dst) (part_of a) (part_of b) (part_of c)) ∷ []) out.new }
{
    out.push_fused(
        FusedOp::MulAdd,
        dst.number(),
        a.number(),
        b.number(),
        c.number(),
    )
}

pub fn if_else(out: &mut Writer, dst: Part, true_val: Part, false_val: Part, cond: Loc)
    ensures { Lists out.old (Record.Work (Work.IfElse (part_of dst) (part_of true_val) (part_of false_val) cond) ∷ []) out.new }
{
    out.push_if_else(dst.number(), true_val.number(), false_val.number(), cond)
}

// Both halves of a sheet's register.
pub fn load_complex(out: &mut Writer, dst: u8, loc: Loc)
    ensures { Lists out.old (Record.Work (Work.LoadComplex (Register.re dst) (Register.im dst) loc) ∷ []) out.new }
{
    out.push_load_complex(re(dst), im(dst), loc)
}

pub fn save_complex(out: &mut Writer, src: u8, loc: Loc)
    ensures { Lists out.old (Record.Work (Work.SaveComplex (Register.re src) (Register.im src) loc) ∷ []) out.new }
{
    out.push_save_complex(re(src), im(src), loc)
}

pub fn complex_bi(out: &mut Writer, op: ArithOp, dst: u8, s1: u8, s2: u8)
    ensures { Lists out.old (Record.Work (Work.ComplexBi op (Register.re dst) (Register.im dst) (Register.re s1) (Register.im s1) (Register.re s2) (Register.im s2)) ∷ []) out.new }
{
    out.push_complex_bi(op, re(dst), im(dst), re(s1), im(s1), re(s2), im(s2))
}
