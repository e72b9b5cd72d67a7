// The nearest point for C. The export is the function of `nearest_call` by its name, with its clause.
#![tactic(auto)]

ghost use Rattle.std.specs.Prelude.{◌≡◌};
ghost use Rattle.nearest_call.specs.Call.{nearest_call};

// Finds the point nearest to the answer (re, im). The answer's 24 bytes: number, 1 where there is a nearest point, its index. Returns the
// number.
#[unsafe(no_mangle)]
pub extern "C" fn tulipcricket_nearest_unguarded(
    re: u64,
    im: u64,
    points: &[u8],
    answer: &mut [u8],
) -> u32
    ensures { record { number = result; answer = answer.new } ≡ nearest_call re im points.now answer.old }
{
    nearest_call::tulipcricket_nearest_unguarded(re, im, points, answer)
}
