// What the constants of an instruction come to, and what `rerun` returns.
ghost use Rattle.std.specs.Prelude.{◌≡◌};
ghost use Rattle.rerun.specs.Added.{none};

use complexifier::state::Complexifier;

// What the instruction under way has added to the constants: the first `count` of the words.
#[derive(Clone, Copy)]
pub struct Added {
    pub words: [u64; 3],
    pub count: usize,
}

// The state and the position after an instruction, and the constants that it added.
#[derive(Clone, Copy)]
pub struct Output {
    pub low: Complexifier,
    pub at: usize,
    pub added: Added,
}

pub(crate) fn nothing() -> Added
    ensures { result ≡ none }
{
    Added {
        words: [0; 3],
        count: 0,
    }
}
