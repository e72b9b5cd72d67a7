// One function for each kind of working record, over the bytes that begin with it. False, and the store as it was, where its operation or
// its place is none. A LoadConst alone reads the constants: of any other kind the contract holds for all.
ghost use Rattle.std.specs.Prelude.{◌≡◌, List, ℕ};
ghost use Rattle.player_work.specs.Encoded.{has_work, worked, uni_encoded, bi_encoded, mov_encoded, load_encoded, save_encoded, load_const_encoded, fused_encoded, if_else_encoded, load_complex_encoded, save_complex_encoded, complex_bi_encoded};

use super::work_kinds::{
    bi, complex_bi, fused, if_else, load, load_complex, load_const, mov, save, save_complex, uni,
};
use mir::fields::{byte, read_place, u16_at};
use mir::ops::read_operation;

#[tactic(auto, unfolding(crate::specs::Encoded::uni_encoded, player_machine::specs::Machine::exec, player_machine::specs::Machine::put, player_machine::specs::Machine::writes))]
pub fn play_uni(store: &mut [u64], s: &[u8]) -> bool
    ensures { (result ≡ has_work (uni_encoded s.now)) × ((constants : List ℕ) → store.new ≡ worked constants (uni_encoded s.now) store.old) }
{
    let Ok(op) = read_operation(byte(s, 4), true) else {
        return false;
    };
    uni(store, op, byte(s, 5), byte(s, 6));
    true
}

#[tactic(auto, unfolding(crate::specs::Encoded::bi_encoded, player_machine::specs::Machine::exec, player_machine::specs::Machine::put, player_machine::specs::Machine::writes))]
pub fn play_bi(store: &mut [u64], s: &[u8]) -> bool
    ensures { (result ≡ has_work (bi_encoded s.now)) × ((constants : List ℕ) → store.new ≡ worked constants (bi_encoded s.now) store.old) }
{
    let Ok(op) = read_operation(byte(s, 4), true) else {
        return false;
    };
    bi(store, op, byte(s, 5), byte(s, 6), byte(s, 7));
    true
}

#[tactic(auto, unfolding(crate::specs::Encoded::mov_encoded, player_machine::specs::Machine::exec, player_machine::specs::Machine::put, player_machine::specs::Machine::writes))]
pub fn play_mov(store: &mut [u64], s: &[u8]) -> bool
    ensures { (result ≡ has_work (mov_encoded s.now)) × ((constants : List ℕ) → store.new ≡ worked constants (mov_encoded s.now) store.old) }
{
    mov(store, byte(s, 4), byte(s, 5));
    true
}

#[tactic(auto, unfolding(crate::specs::Encoded::load_encoded, player_machine::specs::Machine::exec, player_machine::specs::Machine::put, player_machine::specs::Machine::writes))]
pub fn play_load(store: &mut [u64], s: &[u8]) -> bool
    ensures { (result ≡ has_work (load_encoded s.now)) × ((constants : List ℕ) → store.new ≡ worked constants (load_encoded s.now) store.old) }
{
    let Ok(loc) = read_place(s, 5) else {
        return false;
    };
    load(store, byte(s, 4), loc);
    true
}

#[tactic(auto, unfolding(crate::specs::Encoded::save_encoded, player_machine::specs::Machine::exec, player_machine::specs::Machine::put, player_machine::specs::Machine::writes))]
pub fn play_save(store: &mut [u64], s: &[u8]) -> bool
    ensures { (result ≡ has_work (save_encoded s.now)) × ((constants : List ℕ) → store.new ≡ worked constants (save_encoded s.now) store.old) }
{
    let Ok(loc) = read_place(s, 5) else {
        return false;
    };
    save(store, byte(s, 4), loc);
    true
}

#[tactic(auto, unfolding(crate::specs::Encoded::load_const_encoded, player_machine::specs::Machine::exec, player_machine::specs::Machine::put, player_machine::specs::Machine::writes))]
pub fn play_load_const(store: &mut [u64], constants: &[u64], s: &[u8]) -> bool
    ensures { (result ≡ has_work (load_const_encoded s.now)) × (store.new ≡ worked constants.now (load_const_encoded s.now) store.old) }
{
    load_const(store, constants, byte(s, 4), u16_at(s, 5));
    true
}

#[tactic(auto, unfolding(crate::specs::Encoded::fused_encoded, player_machine::specs::Machine::exec, player_machine::specs::Machine::put, player_machine::specs::Machine::writes))]
pub fn play_fused(store: &mut [u64], s: &[u8]) -> bool
    ensures { (result ≡ has_work (fused_encoded s.now)) × ((constants : List ℕ) → store.new ≡ worked constants (fused_encoded s.now) store.old) }
{
    let Ok(op) = read_operation(byte(s, 4), true) else {
        return false;
    };
    fused(store, op, byte(s, 5), byte(s, 6), byte(s, 7), byte(s, 8));
    true
}

#[tactic(auto, unfolding(crate::specs::Encoded::if_else_encoded, player_machine::specs::Machine::exec, player_machine::specs::Machine::put, player_machine::specs::Machine::writes))]
pub fn play_if_else(store: &mut [u64], s: &[u8]) -> bool
    ensures { (result ≡ has_work (if_else_encoded s.now)) × ((constants : List ℕ) → store.new ≡ worked constants (if_else_encoded s.now) store.old) }
{
    let Ok(loc) = read_place(s, 7) else {
        return false;
    };
    if_else(store, byte(s, 4), byte(s, 5), byte(s, 6), loc);
    true
}

#[tactic(auto, unfolding(crate::specs::Encoded::load_complex_encoded, player_machine::specs::Machine::exec, player_machine::specs::Machine::put, player_machine::specs::Machine::writes))]
pub fn play_load_complex(store: &mut [u64], s: &[u8]) -> bool
    ensures { (result ≡ has_work (load_complex_encoded s.now)) × ((constants : List ℕ) → store.new ≡ worked constants (load_complex_encoded s.now) store.old) }
{
    let Ok(loc) = read_place(s, 6) else {
        return false;
    };
    load_complex(store, byte(s, 4), byte(s, 5), loc);
    true
}

#[tactic(auto, unfolding(crate::specs::Encoded::save_complex_encoded, player_machine::specs::Machine::exec, player_machine::specs::Machine::put, player_machine::specs::Machine::writes))]
pub fn play_save_complex(store: &mut [u64], s: &[u8]) -> bool
    ensures { (result ≡ has_work (save_complex_encoded s.now)) × ((constants : List ℕ) → store.new ≡ worked constants (save_complex_encoded s.now) store.old) }
{
    let Ok(loc) = read_place(s, 6) else {
        return false;
    };
    save_complex(store, byte(s, 4), byte(s, 5), loc);
    true
}

#[tactic(auto, unfolding(crate::specs::Encoded::complex_bi_encoded, player_machine::specs::Machine::exec, player_machine::specs::Machine::put, player_machine::specs::Machine::writes))]
pub fn play_complex_bi(store: &mut [u64], s: &[u8]) -> bool
    ensures { (result ≡ has_work (complex_bi_encoded s.now)) × ((constants : List ℕ) → store.new ≡ worked constants (complex_bi_encoded s.now) store.old) }
{
    let Ok(op) = read_operation(byte(s, 4), true) else {
        return false;
    };
    complex_bi(
        store,
        op,
        byte(s, 5),
        byte(s, 6),
        byte(s, 7),
        byte(s, 8),
        byte(s, 9),
        byte(s, 10),
    );
    true
}
