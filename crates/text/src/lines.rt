// The lines of a page, each from its first byte to its line feed.
ghost use Rattle.std.specs.Prelude.{◌*◌, ◌≤◌, length};
ghost use Rattle.mir.specs.Encode.{encode};
ghost use Rattle.text.specs.Line.{Adds, Prints};
ghost use Rattle.text.specs.Sized.{SizedWork, SizedRecord};
ghost use Rattle.text.specs.Text.{work_name, record_name, work_operands, record_operands, constants_heading, constant_line, listing_heading, record_line, refused_line};

use super::line::{Line, empty_line};
use mir::records::{Record, Work};
use mir::writer::flag_byte;

impl Line {
    fn work_name(self, work: Work) -> Line
        ensures { Adds self (work_name work) result }
    {
        match work {
            Work::Uni { op, .. } => self.uni_name(op),
            Work::Bi { op, .. } => self.bin_name(op),
            Work::Mov { .. } => self.text(b"Mov"),
            Work::Load { .. } => self.text(b"Load"),
            Work::Save { .. } => self.text(b"Save"),
            Work::LoadConst { .. } => self.text(b"LoadConst"),
            Work::Fused { op, .. } => self.fused_name(op),
            Work::IfElse { .. } => self.text(b"IfElse"),
            Work::LoadComplex { .. } => self.text(b"LoadComplex"),
            Work::SaveComplex { .. } => self.text(b"SaveComplex"),
            Work::ComplexBi { op, .. } => self.complex_name(op),
        }
    }

    pub fn record_name(self, record: Record) -> Line
        ensures { Adds self (record_name «record») result }
    {
        match record {
            Record::Work(work) => self.work_name(work),
            Record::Label(_) => self.text(b"Label"),
            Record::Branch(_) => self.text(b"Branch"),
            Record::Call(_) => self.text(b"Call"),
            Record::BranchIf { .. } => self.text(b"BranchIf"),
        }
    }

    fn work_operands(self, work: Work) -> Line
        ensures { (Adds self (work_operands work) result) × SizedWork work }
    {
        match work {
            Work::Uni { op, dst, s1 } => self.register(dst).registers(&[s1]),
            Work::Bi { op, dst, s1, s2 } => self.register(dst).registers(&[s1, s2]),
            Work::Mov { dst, s1 } => self.register(dst).registers(&[s1]),
            Work::Load { dst, loc } => self.register(dst).place(loc),
            Work::Save { src, loc } => self.register(src).place(loc),
            Work::LoadConst { dst, idx } => self.register(dst).number(idx as u64),
            Work::Fused { op, dst, a, b, c } => self.register(dst).registers(&[a, b, c]),
            Work::IfElse {
                dst,
                true_val,
                false_val,
                cond,
            } => self
                .register(dst)
                .registers(&[true_val, false_val])
                .place(cond),
            Work::LoadComplex { xd, yd, loc } => self.register(xd).registers(&[yd]).place(loc),
            Work::SaveComplex { xs, ys, loc } => self.register(xs).registers(&[ys]).place(loc),
            Work::ComplexBi {
                op,
                xd,
                yd,
                x1,
                y1,
                x2,
                y2,
            } => self.register(xd).registers(&[yd, x1, y1, x2, y2]),
        }
    }

    pub fn record_operands(self, record: Record) -> Line
        ensures { (Adds self (record_operands «record») result) × SizedRecord «record» }
    {
        match record {
            Record::Work(work) => self.work_operands(work),
            Record::Label(label) => self.decimal(label as u64),
            Record::Branch(label) => self.decimal(label as u64),
            Record::Call(label) => self.decimal(label as u64),
            Record::BranchIf {
                cond,
                label,
                is_else,
            } => self
                .register(cond)
                .number(label as u64)
                .number(flag_byte(is_else) as u64),
        }
    }
}

pub fn constants_heading(count: u64) -> Line
    ensures { Prints (constants_heading count) result }
{
    empty_line().text(b"constants").number(count).byte(b'\n')
}

pub fn constant_line(index: u64, word: u64) -> Line
    ensures { Prints (constant_line index word) result }
{
    empty_line().decimal(index).byte(b' ').hex(word).byte(b'\n')
}

pub fn listing_heading(records: u64, bytes: u64) -> Line
    ensures { Prints (listing_heading records bytes) result }
{
    empty_line()
        .text(b"listing")
        .number(records)
        .number(bytes)
        .byte(b'\n')
}

// At most five bytes for each byte of the record.
pub fn record_line(record: Record) -> Line
    ensures { (Prints (record_line «record») result) × (result.len ≤ 5 * length (encode «record»)) }
{
    empty_line()
        .record_name(record)
        .byte(b' ')
        .record_operands(record)
        .byte(b'\n')
}

pub fn refused_line(number: u64, index: u64) -> Line
    ensures { Prints (refused_line number index) result }
{
    empty_line()
        .text(b"refused")
        .number(number)
        .number(index)
        .byte(b'\n')
}
