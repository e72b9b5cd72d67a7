// The entry of `nearest` as a C function. Words go in and out as eight bytes each, the lowest first.
#![tactic(auto)]

ghost use Rattle.std.specs.Prelude.{◌≡◌};
ghost use Rattle.words.specs.Bytes.{words_of};
ghost use Rattle.nearest.specs.Nearest.{nearest};
ghost use Rattle.nearest.specs.Answer.{as_values};
ghost use Rattle.nearest_call.specs.Call.{nearest_call, numbers};

use nearest::NoPoints;

// The nearest point, with the points as bytes.
fn nearest_words(re: u64, im: u64, points: &[u8]) -> Result<Option<usize>, NoPoints>
    ensures { as_values result ≡ nearest re im (words_of points.now) }
{
    let n = points.len() / 8;
    if 1024 < n {
        return Err(NoPoints);
    }
    let mut table = [0u64; 1024];
    words::load(&mut table, points);
    nearest::nearest_point(re, im, &table[..n])
}

// The number of an answer.
fn number_of(found: Result<Option<usize>, NoPoints>) -> u32
    ensures { result ≡ (as_values found).number }
{
    match found {
        Ok(_) => 0,
        Err(_) => 13,
    }
}

// The three numbers of an answer.
fn numbers_of(found: Result<Option<usize>, NoPoints>) -> [u64; 3]
    ensures { result ≡ numbers (as_values found) }
{
    match found {
        Ok(Some(i)) => [0, 1, i as u64],
        Ok(None) => [0, 0, 0],
        Err(_) => [13, 0, 0],
    }
}

// Finds the point nearest to the answer (re, im). The answer's 24 bytes: number, 1 where there is a nearest point, its index. Returns the
// number.
#[unsafe(no_mangle)]
pub extern "C" fn tulipcricket_nearest_unguarded(
    re: u64,
    im: u64,
    points: &[u8],
    answer: &mut [u8],
) -> u32
    ensures { record { number = result; answer = answer.new } ≡ nearest_call re im points.now answer.old }
{
    if answer.len() != 24 {
        return 8;
    }
    if points.len() % 8 != 0 {
        let refused = [8u64, 0, 0];
        words::save(answer, &refused);
        return 8;
    }
    let found = nearest_words(re, im, points);
    let told = numbers_of(found);
    words::save(answer, &told);
    number_of(found)
}
