// The nearest of a row of reference points, of equal ones the latest. Distances are computed in f64, five operations, each rounded once.
#![tactic(auto)]

ghost use Rattle.std.specs.Prelude.{◌≡◌, ◌||◌};
ghost use Rattle.std.specs.Float.Ieee.{le, ne};
ghost use Rattle.float.specs.Word.{value};
ghost use Rattle.nearest.specs.Nearest.{not_farther, best_of, told, nearest};
ghost use Rattle.nearest.specs.Apart.{apart};
ghost use Rattle.nearest.specs.Answer.{as_values, values_of};

// Words that are no points: an odd count of them, or more than 1,024.
#[derive(Clone, Copy)]
pub struct NoPoints;

// The distance of a point, two words, from an answer. Where a word is a NaN's pattern it is a NaN, and no arithmetic is done.
fn distance(re: f64, im: f64, x: u64, y: u64) -> f64
    ensures { result ≡ apart re im (value x) (value y) }
{
    if float::is_nan(x) {
        return 0.0 / 0.0;
    }
    if float::is_nan(y) {
        return 0.0 / 0.0;
    }
    let a = re - f64::from_bits(x);
    let b = im - f64::from_bits(y);
    a * a + b * b
}

// Whether a distance takes the place of the least so far, which is a NaN where none was a number.
fn wins(least: f64, far: f64) -> bool
    ensures { result ≡ le far least || ne least least }
{
    far <= least || least != least
}

// The nearest of all points; none where no distance is a number.
fn search(re: u64, im: u64, points: &[u64]) -> Option<usize>
    ensures { values_of result ≡ told (best_of not_farther re im points.now) }
{
    let x = float::read(re);
    let y = float::read(im);
    let count = points.len() / 2;
    let mut index: usize = 0;
    let mut least: f64 = 0.0 / 0.0;
    for i in 0..count {
        let at = 2 * i;
        let far = distance(x, y, points[at], points[at + 1]);
        if wins(least, far) {
            index = i;
            least = far;
        }
    }
    if least != least { None } else { Some(index) }
}

// The index of the point nearest to the answer (re, im), or none where no distance is a number. A point is two words, real then imaginary.
#[tactic(auto, unfolding(crate::specs::Nearest::nearest))]
pub fn nearest_point(re: u64, im: u64, points: &[u64]) -> Result<Option<usize>, NoPoints>
    ensures { as_values result ≡ nearest re im points.now }
{
    if points.len() % 2 != 0 {
        return Err(NoPoints);
    }
    if 1024 < points.len() {
        return Err(NoPoints);
    }
    Ok(search(re, im, points))
}
