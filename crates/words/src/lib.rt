// Words in bytes: each word is eight bytes, the lowest first. Where there is no room for the whole of what is to be stored, nothing is
// changed.
#![tactic(auto)]

ghost use Rattle.std.specs.Prelude.{◌≡◌, ◌≤◌, length, take};
ghost use Rattle.words.specs.Bytes.{number, word_at, bytes_of, words_of, stored};

// A list stored over another from at on, where it fits.
pub fn put<T: Copy>(out: &mut [T], at: usize, s: &[T])
    ensures { out.new ≡ stored out.old at s.now }
{
    if s.len() <= out.len() && at <= out.len() - s.len() {
        out[at..at + s.len()].copy_from_slice(s);
    }
}

// The word of at most eight bytes: those that are missing count as 0.
fn short_word(s: &[u8]) -> u64
    requires { length s.now ≤ 8 }
    ensures { result ≡ number (take 8 s.now) }
{
    let mut eight = [0u8; 8];
    put(&mut eight, 0, s);
    u64::from_le_bytes(eight)
}

// The word whose lowest byte stands at a position. A byte past the end counts as 0.
pub fn word_at(s: &[u8], at: usize) -> u64
    ensures { result ≡ word_at s.now at }
{
    if s.len() <= at {
        return 0;
    }
    let part = &s[at..];
    match part.first_chunk::<8>() {
        Some(eight) => u64::from_le_bytes(*eight),
        None => short_word(part),
    }
}

// All whole words of bytes, stored from the start of a table, where they fit.
pub fn load(table: &mut [u64], s: &[u8])
    ensures { table.new ≡ stored table.old 0 (words_of s.now) }
{
    let (eights, _) = s.as_chunks::<8>();
    if eights.len() <= table.len() {
        for (i, eight) in eights.iter().enumerate() {
            table[i] = u64::from_le_bytes(*eight);
        }
    }
}

// All words of a table as bytes, stored from the start of a slice, where they fit.
pub fn save(out: &mut [u8], table: &[u64])
    ensures { out.new ≡ stored out.old 0 (bytes_of table.now) }
{
    if table.len() <= out.len() / 8 {
        for (i, word) in table.iter().enumerate() {
            put(out, 8 * i, &word.to_le_bytes());
        }
    }
}
