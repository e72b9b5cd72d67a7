// Places, a sheet's instructions and a listing's records, with the variants and fields of mir.rs.
ghost use Rattle.std.specs.Prelude.{◌≡◌};
ghost use Rattle.mir.specs.Place.{class, index};

use super::ops::{ArithOp, BinOp, FusedOp, UniOp};

// A place of the store, by class and index.
#[derive(Clone, Copy)]
pub enum Loc {
    Stack(u16),
    Mem(u16),
    Param(u16),
}

impl Loc {
    // The class byte of a place.
    pub fn class(self) -> u8
        ensures { result ≡ class self }
    {
        match self {
            Loc::Stack(_) => 0,
            Loc::Mem(_) => 1,
            Loc::Param(_) => 2,
        }
    }

    // The index of a place.
    pub fn index(self) -> u16
        ensures { result ≡ index self }
    {
        match self {
            Loc::Stack(i) | Loc::Mem(i) | Loc::Param(i) => i,
        }
    }
}

// What a sheet holds: kinds 0 to 10, 14, 15 and 17, over a sheet's registers.
#[derive(Clone, Copy)]
pub enum Instruction {
    Nop,
    Uni {
        op: UniOp,
        dst: u8,
        s1: u8,
    },
    Bi {
        op: BinOp,
        dst: u8,
        s1: u8,
        s2: u8,
    },
    Mov {
        dst: u8,
        s1: u8,
    },
    Load {
        dst: u8,
        loc: Loc,
    },
    Save {
        src: u8,
        loc: Loc,
    },
    LoadConst {
        dst: u8,
        idx: u16,
    },
    Fused {
        op: FusedOp,
        dst: u8,
        a: u8,
        b: u8,
        c: u8,
    },
    IfElse {
        dst: u8,
        true_val: u8,
        false_val: u8,
        cond: Loc,
    },
    LoadMath {
        op: ArithOp,
        dst: u8,
        s1: u8,
        loc: Loc,
    },
    LoadConstMath {
        op: ArithOp,
        dst: u8,
        s1: u8,
        idx: u16,
    },
    Label(u8),
    Branch(u8),
    BranchIf {
        cond: u8,
        label: u8,
        is_else: bool,
    },
}

// A record that works on words: kinds 1 to 8 and 11 to 13, over a listing's registers.
#[derive(Clone, Copy)]
pub enum Work {
    Uni {
        op: UniOp,
        dst: u8,
        s1: u8,
    },
    Bi {
        op: BinOp,
        dst: u8,
        s1: u8,
        s2: u8,
    },
    Mov {
        dst: u8,
        s1: u8,
    },
    Load {
        dst: u8,
        loc: Loc,
    },
    Save {
        src: u8,
        loc: Loc,
    },
    LoadConst {
        dst: u8,
        idx: u16,
    },
    Fused {
        op: FusedOp,
        dst: u8,
        a: u8,
        b: u8,
        c: u8,
    },
    IfElse {
        dst: u8,
        true_val: u8,
        false_val: u8,
        cond: Loc,
    },
    LoadComplex {
        xd: u8,
        yd: u8,
        loc: Loc,
    },
    SaveComplex {
        xs: u8,
        ys: u8,
        loc: Loc,
    },
    ComplexBi {
        op: ArithOp,
        xd: u8,
        yd: u8,
        x1: u8,
        y1: u8,
        x2: u8,
        y2: u8,
    },
}

// What a listing holds: a record works on words or directs the play.
#[derive(Clone, Copy)]
pub enum Record {
    Work(Work),
    Label(u8),
    Branch(u8),
    Call(u8),
    BranchIf { cond: u8, label: u8, is_else: bool },
}
