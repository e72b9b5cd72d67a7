// A record's index, from its decimal digits.
ghost use Rattle.std.specs.Prelude.{◌≡◌};
ghost use Rattle.files.specs.Start.{start_of};

// Digits alone, at least one, of a number below 2^64. `str::parse` would take a sign too.
pub fn start_of(s: &[u8]) -> Option<u64>
    ensures { result ≡ start_of s.now }
{
    if s.is_empty() {
        return None;
    }
    let mut n: u64 = 0;
    for b in s {
        if !(b'0'..=b'9').contains(b) {
            return None;
        }
        n = n.checked_mul(10)?.checked_add(u64::from(*b - b'0'))?;
    }
    Some(n)
}
