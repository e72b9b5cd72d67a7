// What a working record does to the store, read from the bytes that begin with it.
#![tactic(auto)]

ghost use Rattle.std.specs.Prelude.{◌≡◌};
ghost use Rattle.player_work.specs.Encoded.{encoded, has_work, worked};

use bytes::{
    play_bi, play_complex_bi, play_fused, play_if_else, play_load, play_load_complex,
    play_load_const, play_mov, play_save, play_save_complex, play_uni,
};
use mir::fields::u16_at;

mod bytes;
mod operations;
pub mod words;
mod work_kinds;

// Whether the bytes encode work; the store is then what the work makes of it.
pub fn exec(store: &mut [u64], constants: &[u64], s: &[u8]) -> bool
    ensures { (result ≡ has_work (encoded s.now)) × (store.new ≡ worked constants.now (encoded s.now) store.old) }
{
    match u16_at(s, 2) {
        1 => play_uni(store, s),
        2 => play_bi(store, s),
        3 => play_mov(store, s),
        4 => play_load(store, s),
        5 => play_save(store, s),
        6 => play_load_const(store, constants, s),
        7 => play_fused(store, s),
        8 => play_if_else(store, s),
        11 => play_load_complex(store, s),
        12 => play_save_complex(store, s),
        13 => play_complex_bi(store, s),
        _ => false,
    }
}
