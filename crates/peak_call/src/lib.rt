// The running peak as a C function. Words go in and out as eight bytes each, the lowest first.
#![tactic(auto)]

ghost use Rattle.std.specs.Prelude.{◌≡◌};
ghost use Rattle.peak_call.specs.PeakCall.{peak_call};

use words::{load, save};

// The peaks of a run of words in windows of so many. Returns 0; 12 with nothing written, as the entry; or 8 with nothing written, where the run
// or the output is no whole number of words.
#[unsafe(no_mangle)]
pub extern "C" fn tulipcricket_peak_unguarded(run: &[u8], window: u64, out: &mut [u8]) -> u32
    ensures { record { number = result; out = out.new } ≡ peak_call run.now window out.old }
{
    if run.len() % 8 != 0 {
        return 8;
    }
    if out.len() % 8 != 0 {
        return 8;
    }
    if run.len() > 32768 || out.len() < run.len() {
        return 12;
    }
    let n = run.len() / 8;
    let mut words = [0u64; 4096];
    load(&mut words, run);
    let mut peaks = [0u64; 4096];
    match peak::peak(&words[..n], window as usize, &mut peaks) {
        Ok(_) => {
            save(out, &peaks[..n]);
            0
        }
        Err(_) => 12,
    }
}
