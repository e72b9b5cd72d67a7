// Records written to a lent slice, a method for each kind over one run of bytes. Where there is no room for the whole record nothing is
// written, and the position stays.
#![tactic(auto, unfolding(crate::specs::Length::length_of))]

ghost use Rattle.std.specs.Prelude.{◌≡◌, ◌-◌, ◌<◌, take, [], ◌∷◌};
ghost use Rattle.mir.specs.Length.{length_of};
ghost use Rattle.mir.specs.Encode.{buf, placed, record_of, two_bytes, place_bytes, flag_byte};
ghost use Rattle.mir.specs.Writing.{written, Lists};
ghost use Rattle.mir.specs.declared.records.Work.{Work};
ghost use Rattle.mir.specs.declared.records.Record.{Record};

use super::lengths::LENGTHS;
use super::ops::{ArithOp, BinOp, FusedOp, Operation, UniOp};
use super::records::{Loc, Work};

// A number of two bytes, little-endian.
fn two_bytes(n: u16) -> [u8; 2]
    ensures { result ≡ two_bytes n }
{
    [(n % 256) as u8, (n / 256) as u8]
}

// The class byte of a place and the two bytes of its index.
fn place_bytes(loc: Loc) -> [u8; 3]
    ensures { result ≡ place_bytes loc }
{
    let [low, high] = two_bytes(loc.index());
    [loc.class(), low, high]
}

// The byte of a flag.
pub fn flag_byte(flag: bool) -> u8
    ensures { result ≡ flag_byte flag }
{
    if flag { 1 } else { 0 }
}

// A lent slice, and the position in it where the next record goes.
#[derive(Drop)]
pub struct Writer<'a> {
    pub bytes: &'a mut [u8],
    pub at: usize,
}

impl<'a> Writer<'a> {
    pub fn new(bytes: &'a mut [u8], at: usize) -> Writer<'a>
        ensures lent { result.bytes.ghost_name ≡ bytes.entry.ghost_name }
        ensures holds { written result ≡ buf bytes.old at }
    {
        Writer { bytes, at }
    }

    // A record of a kind: its length by the table, the kind, and as many of the fields as the length leaves.
    fn put(&mut self, kind: u8, f: [u8; 7])
        requires { kind < 18 }
        ensures lent { self.new.bytes.ghost_name ≡ self.old.bytes.ghost_name }
        ensures holds { written self.new ≡ placed (written self.old) (record_of kind (take (length_of kind - 4) f)) }
    {
        let length = LENGTHS[kind as usize];
        let n = length as usize;
        if self.bytes.len() < n || self.bytes.len() - n < self.at {
            return;
        }
        let record = [length, 0, kind, 0, f[0], f[1], f[2], f[3], f[4], f[5], f[6]];
        self.bytes[self.at..self.at + n].copy_from_slice(&record[..n]);
        self.at += n;
    }

    pub fn push_uni(&mut self, op: UniOp, dst: u8, s1: u8)
        ensures { Lists self.old (Record.Work (Work.Uni op dst s1) ∷ []) self.new }
    {
        self.put(1, [op.number(), dst, s1, 0, 0, 0, 0])
    }

    pub fn push_bi(&mut self, op: BinOp, dst: u8, s1: u8, s2: u8)
        ensures { Lists self.old (Record.Work (Work.Bi op dst s1 s2) ∷ []) self.new }
    {
        self.put(2, [op.number(), dst, s1, s2, 0, 0, 0])
    }

    pub fn push_mov(&mut self, dst: u8, s1: u8)
        ensures { Lists self.old (Record.Work (Work.Mov dst s1) ∷ []) self.new }
    {
        self.put(3, [dst, s1, 0, 0, 0, 0, 0])
    }

    pub fn push_load(&mut self, dst: u8, loc: Loc)
        ensures { Lists self.old (Record.Work (Work.Load dst loc) ∷ []) self.new }
    {
        let [k, l, h] = place_bytes(loc);
        self.put(4, [dst, k, l, h, 0, 0, 0])
    }

    pub fn push_save(&mut self, src: u8, loc: Loc)
        ensures { Lists self.old (Record.Work (Work.Save src loc) ∷ []) self.new }
    {
        let [k, l, h] = place_bytes(loc);
        self.put(5, [src, k, l, h, 0, 0, 0])
    }

    pub fn push_load_const(&mut self, dst: u8, idx: u16)
        ensures { Lists self.old (Record.Work (Work.LoadConst dst idx) ∷ []) self.new }
    {
        let [l, h] = two_bytes(idx);
        self.put(6, [dst, l, h, 0, 0, 0, 0])
    }

    pub fn push_fused(&mut self, op: FusedOp, dst: u8, a: u8, b: u8, c: u8)
        ensures { Lists self.old (Record.Work (Work.Fused op dst a b c) ∷ []) self.new }
    {
        self.put(7, [op.number(), dst, a, b, c, 0, 0])
    }

    pub fn push_if_else(&mut self, dst: u8, true_val: u8, false_val: u8, cond: Loc)
        ensures { Lists self.old (Record.Work (Work.IfElse dst true_val false_val cond) ∷ []) self.new }
    {
        let [k, l, h] = place_bytes(cond);
        self.put(8, [dst, true_val, false_val, k, l, h, 0])
    }

    pub fn push_load_complex(&mut self, xd: u8, yd: u8, loc: Loc)
        ensures { Lists self.old (Record.Work (Work.LoadComplex xd yd loc) ∷ []) self.new }
    {
        let [k, l, h] = place_bytes(loc);
        self.put(11, [xd, yd, k, l, h, 0, 0])
    }

    pub fn push_save_complex(&mut self, xs: u8, ys: u8, loc: Loc)
        ensures { Lists self.old (Record.Work (Work.SaveComplex xs ys loc) ∷ []) self.new }
    {
        let [k, l, h] = place_bytes(loc);
        self.put(12, [xs, ys, k, l, h, 0, 0])
    }

    pub fn push_complex_bi(&mut self, op: ArithOp, xd: u8, yd: u8, x1: u8, y1: u8, x2: u8, y2: u8)
        ensures { Lists self.old (Record.Work (Work.ComplexBi op xd yd x1 y1 x2 y2) ∷ []) self.new }
    {
        self.put(13, [op.number(), xd, yd, x1, y1, x2, y2])
    }

    pub fn push_label(&mut self, label: u8)
        ensures { Lists self.old (Record.Label label ∷ []) self.new }
    {
        self.put(14, [label, 0, 0, 0, 0, 0, 0])
    }

    pub fn push_branch(&mut self, label: u8)
        ensures { Lists self.old (Record.Branch label ∷ []) self.new }
    {
        self.put(15, [label, 0, 0, 0, 0, 0, 0])
    }

    pub fn push_call(&mut self, label: u8)
        ensures { Lists self.old (Record.Call label ∷ []) self.new }
    {
        self.put(16, [label, 0, 0, 0, 0, 0, 0])
    }

    pub fn push_branch_if(&mut self, cond: u8, label: u8, is_else: bool)
        ensures { Lists self.old (Record.BranchIf cond label is_else ∷ []) self.new }
    {
        self.put(17, [cond, label, flag_byte(is_else), 0, 0, 0, 0])
    }
}
