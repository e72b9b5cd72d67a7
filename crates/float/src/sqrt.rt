// The square root by the steps of specs/Mends.antt: a whole-number estimate from the leading digits, at most eight mends of
// it, which are counted, and the rounding.
ghost use Rattle.std.specs.Prelude.{◌≡◌, cond, ◌⊎◌, ◌+◌, ◌-◌, ◌*◌, ◌^◌, ◌<◌, ◌≤◌, leb};
ghost use Rattle.float.specs.Word as Word;
ghost use Rattle.float.specs.Mends as Mends;

use super::exponent::{odd_digit, root_field};
use super::parts::unpack;

// An estimate of a root, and how many mends it has had.
#[derive(Clone, Copy)]
pub(crate) struct Mended {
    pub(crate) value: u64,
    pub(crate) mends: u32,
}

// An estimate q of the root of n, by its square: q * q + under is n + over.
#[derive(Clone, Copy)]
pub(crate) struct Squared {
    pub(crate) q: u64,
    pub(crate) under: u64,
    pub(crate) over: u64,
    pub(crate) mends: u32,
}

// The whole part q of the root of q * q + r, where r <= 2 * q.
#[derive(Clone, Copy)]
pub(crate) struct Rooted {
    pub(crate) q: u64,
    pub(crate) r: u64,
    pub(crate) mends: u32,
}

// The estimate of the root of m, from all but the lowest 28 of its 53 or 54 digits.
pub(crate) fn estimate(m: u64) -> u64
    requires { m < 2 ^ 54 }
    ensures { result ≡ (Mends.estimate m).value }
{
    (m >> 28) + 0x360_0000
}

// A mend of u, downwards or upwards, to the middle between u and m / u. It is never the ninth.
pub(crate) fn mend(m: u64, u: u64, mends: u32) -> Mended
    requires { (m < 2 ^ 54) × (0 < u) × (u < 2 ^ 54) × (mends < 8) }
    ensures { (result.value ≡ Mends.middle m u) × (result.value < 2 ^ 54) × (result.mends ≡ mends + 1) }
{
    Mended {
        value: (u + m / u) / 2,
        mends: mends + 1,
    }
}

// How far x is from y.
pub(crate) fn apart(x: u64, y: u64) -> u64
    ensures { (x ≡ y + result) ⊎ (y ≡ x + result) }
{
    if x < y { y - x } else { x - y }
}

// The mend that finds 26 digits more, and never the ninth: of u, which is w * 2^26, to the middle q between u and n / u, where n is m * 2^52. By the rests of
// the divisions 2 * q * u + under is n + u * u, so that q * q + under is n + (q - u)^2: no number here has more than 64 digits.
pub(crate) fn lengthen(m: u64, w: u64, mends: u32) -> Squared
    requires { (m < 2 ^ 54) × (2 ^ 26 ≤ w) × (w * w ≤ m + 2 * w) × (m ≤ w * w + 2 * w) × (mends < 8) }
    ensures { (result.q ≡ Mends.middle (m * 2 ^ 52) (w * 2 ^ 26)) × (result.q * result.q + result.under ≡ m * 2 ^ 52 + result.over) × (result.under ≤ 2 * result.q + result.over) × (result.over < 2 * result.q) × (result.q < 2 ^ 60) × (result.mends ≡ mends + 1) }
{
    let rest = m % w * 0x200_0000;
    let q = (w + m / w) * 0x200_0000 + rest / w;
    let t = apart(q, w * 0x400_0000);
    Squared {
        q: q,
        under: rest % w * 0x800_0000,
        over: t * t,
        mends: mends + 1,
    }
}

// The last mend: downwards by one where the square of q is above n, of which q * q + under is n + over. Elsewhere there is none.
pub(crate) fn last_mend(q: u64, under: u64, over: u64, mends: u32) -> Rooted
    requires { (under ≤ 2 * q + over) × (over < 2 * q) × (q < 2 ^ 60) × (mends < 8) }
    ensures { (result.q ≡ q - cond (leb over under) 0 1) × (result.q * result.q + result.r + over ≡ q * q + under) × (result.r ≤ 2 * result.q) × (result.mends ≡ mends + cond (leb over under) 0 1) }
{
    if under < over {
        Rooted {
            q: q - 1,
            r: 2 * q - 1 - (over - under),
            mends: mends + 1,
        }
    } else {
        Rooted {
            q: q,
            r: under - over,
            mends: mends,
        }
    }
}

// The whole root of m * 2^52, and the rest: the only search for a root. Its mends are counted as they are made: they are those of the
// definition, and eight at most.
pub(crate) fn whole_root(m: u64) -> Rooted
    requires { (2 ^ 52 ≤ m) × (m < 2 ^ 54) }
    ensures { (result.q ≡ (Mends.mended m).value) × (result.mends ≡ (Mends.mended m).mends) × (result.mends ≤ 8) × (result.q * result.q + result.r ≡ m * 2 ^ 52) × (result.r ≤ 2 * result.q) }
{
    let u = mend(m, estimate(m), 0);
    let v = mend(m, u.value, u.mends);
    let w = mend(m, v.value, v.mends);
    let s = lengthen(m, w.value, w.mends);
    last_mend(s.q, s.under, s.over, s.mends)
}

// The root of m * 2^52, rounded: it is above q + 1/2 where q * q + r is above q * q + q + 1/4, and it is never q + 1/2.
pub(crate) fn rounded_root(m: u64) -> u64
    requires { (2 ^ 52 ≤ m) × (m < 2 ^ 54) }
    ensures { (result ≡ Mends.rounded m) × (result ≤ 2 ^ 53) }
{
    let s = whole_root(m);
    if s.q < s.r { s.q + 1 } else { s.q }
}

// The root of a word that is positive and finite. The digit that halving the exponent leaves over goes to the significand.
pub(crate) fn root_finite(a: u64) -> u64
    requires { (0 < a) × (a < 2047 * 2 ^ 52) }
    ensures { result ≡ Word.root a }
{
    let p = unpack(a);
    let root = rounded_root(p.m << odd_digit(p.e));
    (root_field(p.e) << 52) + root
}
