// The running peak for C. The export is the function of `peak_call` by its name, with its clause.
#![tactic(auto)]

ghost use Rattle.std.specs.Prelude.{◌≡◌};
ghost use Rattle.peak_call.specs.PeakCall.{peak_call};

// The peaks of a run of words in windows of so many. Returns 0; 12 with nothing written, as the entry; or 8 with nothing written, where the run
// or the output is no whole number of words.
#[unsafe(no_mangle)]
pub extern "C" fn tulipcricket_peak_unguarded(run: &[u8], window: u64, out: &mut [u8]) -> u32
    ensures { record { number = result; out = out.new } ≡ peak_call run.now window out.old }
{
    peak_call::tulipcricket_peak_unguarded(run, window, out)
}
