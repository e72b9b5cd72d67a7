// Moves, constants and places.
#![tactic(auto, unfolding(lowering::specs::Lines::ensure_lines, lowering::specs::Lines::fmov_lines, lowering::specs::Lines::load_lines, lowering::specs::Lines::save_lines))]

ghost use Rattle.std.specs.Prelude.{map, [], ◌∷◌};
ghost use Rattle.mir.specs.declared.records.Record.{Record};
ghost use Rattle.mir.specs.Register.{re};
ghost use Rattle.lowering.specs.Pushes.{load_const};
ghost use Rattle.lowering.specs.Lines.{ensure_lines, fmov_lines, load_lines, save_lines};
ghost use Rattle.mir.specs.Writing.{Lists};

use super::emit::{bi, load, load_complex, load_const, mov, save_complex};
use super::parts::Part;
use mir::ops::BinOp;
use mir::records::Loc;
use mir::writer::Writer;

// `ensure_complex`
pub fn ensure_lines(out: &mut Writer, x: bool, d: u8)
    ensures { Lists out.old (map Record.Work (ensure_lines x d)) out.new }
{
    if x {
        bi(out, BinOp::Xor, Part::Im(d), Part::Im(d), Part::Im(d));
        return;
    }
}

// `fmov`
pub fn fmov_lines(out: &mut Writer, x: bool, d: u8, a: u8)
    ensures { Lists out.old (map Record.Work (fmov_lines x d a)) out.new }
{
    mov(out, Part::Re(d), Part::Re(a));
    if x {
        return;
    }
    mov(out, Part::Im(d), Part::Im(a))
}

// `load_const`
pub fn load_const_lines(out: &mut Writer, d: u8, idx: u16)
    ensures { Lists out.old (map Record.Work (load_const (re d) idx ∷ [])) out.new }
{
    load_const(out, Part::Re(d), idx)
}

// `load_mem`, `load_param`, `load_stack`
pub fn load_lines(out: &mut Writer, x: bool, d: u8, loc: Loc)
    ensures { Lists out.old (map Record.Work (load_lines x d loc)) out.new }
{
    if x {
        load(out, Part::Re(d), loc);
        return;
    }
    load_complex(out, d, loc)
}

// `save_mem`, `save_stack`, behind `ensure_complex`
pub fn save_lines(out: &mut Writer, a: u8, loc: Loc)
    ensures { Lists out.old (map Record.Work (save_lines a loc)) out.new }
{
    save_complex(out, a, loc)
}
