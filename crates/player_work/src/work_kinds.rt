// One function for each kind of working record. Operands are read before anything is written; of two destinations the first is
// written first.
ghost use Rattle.std.specs.Prelude.{◌≡◌, suc, get_or, set};
ghost use Rattle.player_machine.specs.Machine.{at, uni_word, bin_word, fused_word, complex_words};
ghost use Rattle.player_machine.specs.Machine as Machine;
ghost use Rattle.float.specs.Word.{if_else};

use super::operations::{bin_word, complex_words, fused_word, uni_word};
use super::words::{get, get_register, place, put, put_register};
use mir::ops::{ArithOp, BinOp, FusedOp, UniOp};
use mir::records::Loc;

pub fn uni(store: &mut [u64], op: UniOp, dst: u8, s1: u8)
    ensures { store.new ≡ set store.old dst (uni_word op (at store.old s1)) }
{
    let a = get_register(store, s1);
    let v = uni_word(op, a);
    put_register(store, dst, v)
}

pub fn bi(store: &mut [u64], op: BinOp, dst: u8, s1: u8, s2: u8)
    ensures { store.new ≡ set store.old dst (bin_word op (at store.old s1) (at store.old s2)) }
{
    let a = get_register(store, s1);
    let b = get_register(store, s2);
    let v = bin_word(op, a, b);
    put_register(store, dst, v)
}

pub fn mov(store: &mut [u64], dst: u8, s1: u8)
    ensures { store.new ≡ set store.old dst (at store.old s1) }
{
    let v = get_register(store, s1);
    put_register(store, dst, v)
}

pub fn load(store: &mut [u64], dst: u8, loc: Loc)
    ensures { store.new ≡ set store.old dst (at store.old (Machine.place loc)) }
{
    let i = place(loc);
    let v = get(store, i);
    put_register(store, dst, v)
}

pub fn save(store: &mut [u64], src: u8, loc: Loc)
    ensures { store.new ≡ set store.old (Machine.place loc) (at store.old src) }
{
    let i = place(loc);
    let v = get_register(store, src);
    put(store, i, v)
}

pub fn load_const(store: &mut [u64], constants: &[u64], dst: u8, idx: u16)
    ensures { store.new ≡ set store.old dst (get_or constants.now idx 0) }
{
    let v = get(constants, idx as usize);
    put_register(store, dst, v)
}

pub fn fused(store: &mut [u64], op: FusedOp, dst: u8, a: u8, b: u8, c: u8)
    ensures { store.new ≡ set store.old dst (fused_word op (at store.old a) (at store.old b) (at store.old c)) }
{
    let x = get_register(store, a);
    let y = get_register(store, b);
    let z = get_register(store, c);
    let v = fused_word(op, x, y, z);
    put_register(store, dst, v)
}

pub fn if_else(store: &mut [u64], dst: u8, true_val: u8, false_val: u8, cond: Loc)
    ensures { store.new ≡ set store.old dst (if_else (at store.old (Machine.place cond)) (at store.old true_val) (at store.old false_val)) }
{
    let i = place(cond);
    let c = get(store, i);
    let t = get_register(store, true_val);
    let f = get_register(store, false_val);
    let v = float::if_else(c, t, f);
    put_register(store, dst, v)
}

pub fn load_complex(store: &mut [u64], xd: u8, yd: u8, loc: Loc)
    ensures { store.new ≡ set (set store.old xd (at store.old (Machine.place loc))) yd (at store.old (suc (Machine.place loc))) }
{
    let i = place(loc);
    let x = get(store, i);
    let y = get(store, i + 1);
    put_register(store, xd, x);
    put_register(store, yd, y)
}

pub fn save_complex(store: &mut [u64], xs: u8, ys: u8, loc: Loc)
    ensures { store.new ≡ set (set store.old (Machine.place loc) (at store.old xs)) (suc (Machine.place loc)) (at store.old ys) }
{
    let i = place(loc);
    let x = get_register(store, xs);
    let y = get_register(store, ys);
    put(store, i, x);
    put(store, i + 1, y)
}

pub fn complex_bi(store: &mut [u64], op: ArithOp, xd: u8, yd: u8, x1: u8, y1: u8, x2: u8, y2: u8)
    ensures { store.new ≡ set (set store.old xd (complex_words op (at store.old x1) (at store.old y1) (at store.old x2) (at store.old y2)).0) yd (complex_words op (at store.old x1) (at store.old y1) (at store.old x2) (at store.old y2)).1 }
{
    let a = get_register(store, x1);
    let b = get_register(store, y1);
    let c = get_register(store, x2);
    let d = get_register(store, y2);
    let w = complex_words(op, a, b, c, d);
    let x = w.re;
    let y = w.im;
    put_register(store, xd, x);
    put_register(store, yd, y)
}
