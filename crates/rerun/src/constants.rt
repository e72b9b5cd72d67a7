// The constants that stable mode names, sought among the finished ones and those that the instruction under way has added.
ghost use Rattle.std.specs.Prelude.{◌≡◌, ◌≤◌, length};
ghost use Rattle.lowering.specs.Complexifier.{position};
ghost use Rattle.rerun.specs.Added as Spec;

use super::output::{Added, nothing};

// f64::MIN_POSITIVE, f64::INFINITY and 0.25
pub const MIN_POSITIVE: u64 = 0x0010_0000_0000_0000;

pub const INFINITY: u64 = 0x7ff0_0000_0000_0000;

pub const QUARTER: u64 = 0x3fd0_0000_0000_0000;

pub const EXP_MASK_FINITE: u64 = 0x7fe0_0000_0000_0000;

pub const FLOOR_FINITE: u64 = 0x0020_0000_0000_0000;

// The index of a constant, whether it was appended, and what is then added.
#[derive(Clone, Copy)]
pub struct Found {
    pub at: u16,
    pub appended: bool,
    pub added: Added,
}

// The indices of three constants, and what is then added.
#[derive(Clone, Copy)]
pub struct Three {
    pub i: u16,
    pub j: u16,
    pub q: u16,
    pub added: Added,
}

// The first position of a word; the count of words where it has none.
fn position_of(words: &[u64], v: u64) -> usize
    ensures { result ≡ position v words.now }
{
    let mut i: usize = 0;
    while i < words.len() {
        if words[i] == v {
            return i;
        }
        i += 1;
    }
    i
}

fn stable_const(constants: &[u64], added: Added, v: u64) -> Found
    requires constants_len_bound { length constants.now ≤ 256 }
    requires count_bound { added.count ≤ 2 }
    ensures { Spec.Sought constants.now added v result }
{
    let n = constants.len();
    let p = position_of(constants, v);
    if p < n {
        return Found {
            at: p as u16,
            appended: false,
            added: added,
        };
    }
    let mut words = added.words;
    let k = added.count;
    let q = position_of(&words[..k], v);
    if q < k {
        return Found {
            at: (n + q) as u16,
            appended: false,
            added: added,
        };
    }
    words[k] = v;
    let more = Added {
        words: words,
        count: k + 1,
    };
    Found {
        at: (n + k) as u16,
        appended: true,
        added: more,
    }
}

// Three constants, each sought after the one before it.
pub(crate) fn seek_three(constants: &[u64], u: u64, v: u64, w: u64) -> Three
    requires { length constants.now ≤ 256 }
    ensures { Spec.ThreeSought constants.now u v w result }
{
    let none = nothing();
    let f = stable_const(constants, none, u);
    let one = f.added;
    let g = stable_const(constants, one, v);
    let two = g.added;
    let h = stable_const(constants, two, w);
    let all = h.added;
    Three {
        i: f.at,
        j: g.at,
        q: h.at,
        added: all,
    }
}
