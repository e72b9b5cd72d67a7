// The methods of complexify.rs that may name constants. `constants` are those of the finished instructions.
ghost use Rattle.std.specs.Prelude.{◌≤◌, length, eqb};
ghost use Rattle.mir.specs.Register.{Temp};
ghost use Rattle.lowering.specs.Complexifier as Spec;
ghost use Rattle.rerun.specs.Adds.{Adds};

use super::constants::{
    EXP_MASK_FINITE, FLOOR_FINITE, INFINITY, MIN_POSITIVE, QUARTER, seek_three,
};
use super::output::{Added, nothing};
use complexifier::state::Complexifier;
use lines::binary::divide_lines;
use lines::unary::{abs_lines, real_root_lines, recip_lines};
use mir::registers::{RET, TEMP};
use mir::writer::Writer;
use root_lines::{plain_around_block, stable_around_block};
use sheet::setup::Mode;
use stable_lines::{stable_abs_lines, stable_divide_lines, stable_recip_lines};

fn stable_abs(low: &mut Complexifier, constants: &[u64], out: &mut Writer, dst: u8, s1: u8) -> Added
    requires { length constants.now ≤ 256 }
    ensures { Adds out.old low.old constants.now (Spec.stable_abs dst s1) out.new low.new result }
{
    let t = seek_three(constants, FLOOR_FINITE, EXP_MASK_FINITE, INFINITY);
    stable_abs_lines(out, dst, s1, t.i, t.j, t.q);
    low.set_reg_complex(dst);
    t.added
}

fn stable_recip(
    low: &mut Complexifier,
    constants: &[u64],
    out: &mut Writer,
    dst: u8,
    s1: u8,
) -> Added
    requires { length constants.now ≤ 256 }
    ensures { Adds out.old low.old constants.now (Spec.stable_recip dst s1) out.new low.new result }
{
    let t = seek_three(constants, MIN_POSITIVE, INFINITY, QUARTER);
    stable_recip_lines(out, dst, s1, t.i, t.j, t.q);
    low.set_reg_complex(dst);
    t.added
}

// x: s1 is recorded as real.
fn stable_divide(
    low: &mut Complexifier,
    constants: &[u64],
    out: &mut Writer,
    x: bool,
    dst: u8,
    s1: u8,
    s2: u8,
) -> Added
    requires { length constants.now ≤ 256 }
    ensures { Adds out.old low.old constants.now (Spec.stable_divide x dst s1 s2) out.new low.new result }
{
    let t = seek_three(constants, MIN_POSITIVE, INFINITY, QUARTER);
    stable_divide_lines(out, dst < 30, x, dst, s1, s2, t.i, t.j, t.q);
    low.set_reg_complex(dst);
    t.added
}

// By a complex register in mode 2: into Temp it is one into Ret, moved to Temp.
fn minding_divide(
    low: &mut Complexifier,
    constants: &[u64],
    out: &mut Writer,
    x: bool,
    dst: u8,
    s1: u8,
    s2: u8,
) -> Added
    requires { length constants.now ≤ 256 }
    ensures { Adds out.old low.old constants.now (Spec.minding_divide (eqb dst Temp) x dst s1 s2) out.new low.new result }
{
    if dst == TEMP {
        let added = stable_divide(low, constants, out, x, RET, s1, s2);
        low.fmov(out, TEMP, RET);
        return added;
    }
    stable_divide(low, constants, out, x, dst, s1, s2)
}

pub(crate) fn abs(
    low: &mut Complexifier,
    constants: &[u64],
    stable: bool,
    out: &mut Writer,
    dst: u8,
    s1: u8,
) -> Added
    requires { length constants.now ≤ 256 }
    ensures { Adds out.old low.old constants.now (Spec.abs stable dst s1) out.new low.new result }
{
    let x = low.is_real_reg(s1);
    if x {
        abs_lines(out, true, dst, s1);
        low.set_reg_real(dst);
        return nothing();
    }
    if stable {
        return stable_abs(low, constants, out, dst, s1);
    }
    abs_lines(out, false, dst, s1);
    low.set_reg_complex(dst);
    nothing()
}

pub(crate) fn recip(
    low: &mut Complexifier,
    constants: &[u64],
    stable: bool,
    out: &mut Writer,
    dst: u8,
    s1: u8,
) -> Added
    requires { length constants.now ≤ 256 }
    ensures { Adds out.old low.old constants.now (Spec.recip stable dst s1) out.new low.new result }
{
    let x = low.is_real_reg(s1);
    if x {
        recip_lines(out, true, dst, s1);
        low.set_reg_real(dst);
        return nothing();
    }
    if stable {
        return stable_recip(low, constants, out, dst, s1);
    }
    recip_lines(out, false, dst, s1);
    low.set_reg_complex(dst);
    nothing()
}

pub(crate) fn divide(
    low: &mut Complexifier,
    constants: &[u64],
    mode: Mode,
    out: &mut Writer,
    dst: u8,
    s1: u8,
    s2: u8,
) -> Added
    requires { length constants.now ≤ 256 }
    ensures { Adds out.old low.old constants.now (Spec.divide mode dst s1 s2) out.new low.new result }
{
    let x = low.is_real_reg(s1);
    let y = low.is_real_reg(s2);
    if y {
        divide_lines(out, x, true, dst, s1, s2);
        low.set_reg(dst, x);
        return nothing();
    }
    match mode {
        Mode::Plain => {
            divide_lines(out, x, false, dst, s1, s2);
            low.set_reg_complex(dst);
            nothing()
        }
        Mode::Stable => stable_divide(low, constants, out, x, dst, s1, s2),
        Mode::Minding => minding_divide(low, constants, out, x, dst, s1, s2),
    }
}

// The root block, where it is not listed yet.
fn define_root(low: &mut Complexifier, constants: &[u64], stable: bool, out: &mut Writer) -> Added
    requires { length constants.now ≤ 256 }
    ensures { Adds out.old low.old constants.now (λ s. Spec.define_root s.is_root_defined stable s) out.new low.new result }
{
    if low.root_defined {
        return nothing();
    }
    low.root_defined = true;
    if stable {
        let t = seek_three(constants, FLOOR_FINITE, EXP_MASK_FINITE, INFINITY);
        stable_around_block(out, t.i, t.j, t.q);
        return t.added;
    }
    plain_around_block(out);
    nothing()
}

pub(crate) fn root(
    low: &mut Complexifier,
    constants: &[u64],
    stable: bool,
    out: &mut Writer,
    dst: u8,
    s1: u8,
) -> Added
    requires { length constants.now ≤ 256 }
    ensures { Adds out.old low.old constants.now (Spec.root stable dst s1) out.new low.new result }
{
    low.ensure_complex(out, s1);
    low.fmov(out, TEMP, s1);
    low.call_root(out);
    low.fmov(out, dst, RET);
    define_root(low, constants, stable, out)
}

pub(crate) fn real_root(
    low: &mut Complexifier,
    constants: &[u64],
    stable: bool,
    out: &mut Writer,
    dst: u8,
    s1: u8,
) -> Added
    requires { length constants.now ≤ 256 }
    ensures { Adds out.old low.old constants.now (Spec.real_root stable dst s1) out.new low.new result }
{
    let x = low.is_real_reg(s1);
    if x {
        real_root_lines(out, dst, s1);
        low.set_reg_real(dst);
        return nothing();
    }
    root(low, constants, stable, out, dst, s1)
}
