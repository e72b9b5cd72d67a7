// assemble [TEXT]: a sheet's text, from a file or from standard input, as the sheet's bytes on standard output; or `refused` with the reason.
#![tactic(auto)]

use assembly::making::assemble;

fn print_sheet(rt: HostRuntime, t: &[u8]) {
    let w = assemble(t);
    let bytes = w.bytes;
    files::print(rt, &bytes, w.len);
}

// One byte more than the longest text is read, so that a longer one is refused and not cut.
fn main(rt: HostRuntime) {
    let mut t = [0u8; 500001];
    if let Ok(n) = files::read_input(rt, &mut t) {
        print_sheet(rt, &t[..n]);
    }
}
