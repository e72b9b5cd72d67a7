// What complexify.rs's `root` lists behind its call and moves: the block between its labels. i, j and q are the indices of the constants
// that stable mode names.
#![tactic(auto, unfolding(lowering::specs::Lines::stable_root_magnitude, lowering::specs::Lines::plain_root_magnitude, lowering::specs::Lines::root_block, crate::specs::RootBlock::root_mask, crate::specs::RootBlock::root_halves))]

ghost use Rattle.std.specs.Prelude.{map};
ghost use Rattle.mir.specs.declared.records.Record.{Record};
ghost use Rattle.lowering.specs.Lines.{stable_root_magnitude, plain_root_magnitude, root_block};
ghost use Rattle.lowering.specs.Complexifier.{around_block};
ghost use Rattle.mir.specs.Writing.{Lists};
ghost use Rattle.root_lines.specs.RootBlock.{root_mask, root_halves};

use lines::emit::{bi, fused_mul_add, if_else, load_const, save, uni};
use lines::parts::{RET_IM, RET_RE, T0, T1, TEMP_IM, TEMP_RE};
use mir::ops::{BinOp, UniOp};
use mir::records::Loc;
use mir::writer::Writer;
use stable_lines::stable_exponent;

// "@complex_root"
const ROOT: u8 = 1;

// "@jump_over_complex_root"
const OVER: u8 = 2;

// `ret`: back to the call
const BACK: u8 = 0;

// `stable_root_magnitude`
fn stable_root_magnitude(out: &mut Writer, i: u16, j: u16, q: u16)
    ensures { Lists out.old (map Record.Work (stable_root_magnitude i j q)) out.new }
{
    stable_exponent(out, TEMP_RE, TEMP_IM, i, j);
    uni(out, UniOp::Root, T0, T0);
    bi(out, BinOp::And, T0, T0, T1);
    bi(out, BinOp::Times, T1, T0, T0);
    load_const(out, RET_RE, q);
    bi(out, BinOp::Xor, T1, T1, RET_RE);
    uni(out, UniOp::Half, T1, T1);
    bi(out, BinOp::Times, RET_RE, TEMP_RE, T1);
    bi(out, BinOp::Times, T1, TEMP_IM, T1);
    bi(out, BinOp::Times, TEMP_RE, RET_RE, RET_RE);
    fused_mul_add(out, TEMP_RE, T1, T1, TEMP_RE);
    uni(out, UniOp::Root, TEMP_RE, TEMP_RE);
    uni(out, UniOp::Abs, T1, RET_RE);
    bi(out, BinOp::Plus, TEMP_RE, TEMP_RE, T1);
    uni(out, UniOp::Half, TEMP_RE, TEMP_RE);
    uni(out, UniOp::Root, TEMP_RE, TEMP_RE);
    bi(out, BinOp::Times, T0, TEMP_RE, T0)
}

// What the block computes first in plain mode.
fn plain_root_magnitude(out: &mut Writer)
    ensures { Lists out.old (map Record.Work (plain_root_magnitude)) out.new }
{
    bi(out, BinOp::Times, T0, TEMP_RE, TEMP_RE);
    fused_mul_add(out, T0, TEMP_IM, TEMP_IM, T0);
    uni(out, UniOp::Root, T0, T0);
    uni(out, UniOp::Abs, T1, TEMP_RE);
    bi(out, BinOp::Plus, T0, T0, T1);
    uni(out, UniOp::Half, T0, T0);
    uni(out, UniOp::Root, T0, T0)
}

// The block before the magnitude.
fn root_mask(out: &mut Writer)
    ensures { Lists out.old (map Record.Work (root_mask)) out.new }
{
    bi(out, BinOp::Xor, T0, T0, T0);
    bi(out, BinOp::LittleThan, T0, T0, TEMP_RE);
    save(out, T0, Loc::Stack(2))
}

// The block behind the magnitude.
fn root_halves(out: &mut Writer)
    ensures { Lists out.old (map Record.Work (root_halves)) out.new }
{
    bi(out, BinOp::Divide, T1, TEMP_IM, T0);
    uni(out, UniOp::Half, T1, T1);
    bi(out, BinOp::Equal, TEMP_RE, T1, T1);
    bi(out, BinOp::And, T1, T1, TEMP_RE);
    if_else(out, TEMP_RE, T0, T1, Loc::Stack(2));
    if_else(out, TEMP_IM, T1, T0, Loc::Stack(2));
    uni(out, UniOp::Sign, T0, TEMP_RE);
    bi(out, BinOp::Xor, RET_RE, TEMP_RE, T0);
    bi(out, BinOp::Xor, RET_IM, TEMP_IM, T0)
}

// The block of `root` from its label to `ret`, in plain mode.
fn plain_root_block(out: &mut Writer)
    ensures { Lists out.old (map Record.Work (root_block plain_root_magnitude)) out.new }
{
    root_mask(out);
    plain_root_magnitude(out);
    root_halves(out)
}

// The same in stable mode.
fn stable_root_block(out: &mut Writer, i: u16, j: u16, q: u16)
    ensures { Lists out.old (map Record.Work (root_block (stable_root_magnitude i j q))) out.new }
{
    root_mask(out);
    stable_root_magnitude(out, i, j, q);
    root_halves(out)
}

// The block between its labels, in plain mode.
pub fn plain_around_block(out: &mut Writer)
    ensures { Lists out.old (around_block (root_block plain_root_magnitude)) out.new }
{
    out.push_branch(OVER);
    out.push_label(ROOT);
    plain_root_block(out);
    out.push_branch(BACK);
    out.push_label(OVER)
}

// The same in stable mode.
pub fn stable_around_block(out: &mut Writer, i: u16, j: u16, q: u16)
    ensures { Lists out.old (around_block (root_block (stable_root_magnitude i j q))) out.new }
{
    out.push_branch(OVER);
    out.push_label(ROOT);
    stable_root_block(out, i, j, q);
    out.push_branch(BACK);
    out.push_label(OVER)
}
