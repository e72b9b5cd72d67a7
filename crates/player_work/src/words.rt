// The words of the store by index. A word past the end reads as 0, and one written there is lost.
ghost use Rattle.std.specs.Prelude.{◌≡◌, get_or, set};
ghost use Rattle.player_machine.specs.Machine as Machine;

use mir::records::Loc;

pub fn get(words: &[u64], i: usize) -> u64
    ensures { result ≡ get_or words.now i 0 }
{
    if i < words.len() { words[i] } else { 0 }
}

pub fn put(words: &mut [u64], i: usize, v: u64)
    ensures { words.new ≡ set words.old i v }
{
    if i < words.len() {
        words[i] = v;
    }
}

// The word of a register.
pub fn get_register(store: &[u64], r: u8) -> u64
    ensures { result ≡ get_or store.now r 0 }
{
    get(store, r as usize)
}

pub fn put_register(store: &mut [u64], r: u8, v: u64)
    ensures { store.new ≡ set store.old r v }
{
    put(store, r as usize, v)
}

// The index of a place's real word, which its imaginary word follows.
pub fn place(loc: Loc) -> usize
    ensures { result ≡ Machine.place loc }
{
    66 + (512 * (loc.class() as usize) + 2 * (loc.index() as usize))
}
