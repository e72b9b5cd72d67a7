// A record's fields, each after a space.
ghost use Rattle.text.specs.Line.{Adds};
ghost use Rattle.text.specs.Sized.{SizedPlace};
ghost use Rattle.text.specs.Text.{space, decimal, register, place, registers};

use super::line::Line;
use mir::records::Loc;

impl Line {
    pub fn number(self, n: u64) -> Line
        ensures { Adds self (space (decimal n)) result }
    {
        self.byte(b' ').decimal(n)
    }

    // A register's name.
    pub fn register(self, r: u8) -> Line
        ensures { Adds self (register r) result }
    {
        if r == 64 {
            return self.text(b"Ret");
        }
        if r == 65 {
            return self.text(b"Temp");
        }
        self.text(b"G").decimal(r as u64)
    }

    pub fn registers(self, rs: &[u8]) -> Line
        ensures { Adds self (registers rs.now) result }
    {
        let mut line = self;
        for r in rs {
            line = line.byte(b' ').register(*r);
        }
        line
    }

    pub fn place(self, loc: Loc) -> Line
        ensures { (Adds self (space (place loc)) result) × SizedPlace loc }
    {
        match loc {
            Loc::Stack(i) => self.text(b" Stack").number(i as u64),
            Loc::Mem(i) => self.text(b" Mem").number(i as u64),
            Loc::Param(i) => self.text(b" Param").number(i as u64),
        }
    }
}
