// print_pages LISTING CONSTANTS: lays a listing and its constants out on pages, and prints them; or that there is no page; or the refusal.
#![tactic(auto)]

ghost use Rattle.std.specs.Prelude.{◌-◌, ◌≤◌, ◌≡◌, length};
ghost use Rattle.text.specs.Puts.{Puts};
ghost use Rattle.pages.specs.Printed.{least};
ghost use Rattle.print_pages.specs.Shown.{shown};

use pages::call::part_of;
use reports::refusal_line;
use text::put::{put, put_line};

// How many bytes were put, and how many pages there are in all; none after which nothing is to be printed.
#[derive(Clone, Copy)]
pub struct Part {
    pub len: usize,
    pub pages: usize,
}

// How many of the pages are printed at once.
fn at_once(pages: usize, first: usize) -> usize
    ensures { result ≡ least 112 (pages - first) }
{
    pages.saturating_sub(first).min(112)
}

// The text from page `first` on.
fn put_part(out: &mut [u8], listing: &[u8], constants: &[u8], first: usize) -> Part
    requires { 490560 ≤ length out.old }
    ensures { Puts out.old 0 (shown first listing.now constants.now) out.new result.len }
{
    let a = part_of(listing, constants, first, 112, out);
    if a.number != 0 {
        let len = put_line(out, 0, refusal_line(a.number as u64, a.index as u64));
        return Part { len, pages: 0 };
    }
    if a.pages == 0 {
        let len = put(out, 0, b"no page\n");
        return Part { len, pages: 0 };
    }
    Part {
        len: 4380 * at_once(a.pages, first),
        pages: a.pages,
    }
}

// Prints at most 112 pages; how many there are in all.
fn print_part(rt: HostRuntime, listing: &[u8], constants: &[u8], first: usize) -> usize {
    let mut out = [0u8; 490560];
    let part = put_part(&mut out, listing, constants, first);
    files::print(rt, &out, part.len);
    part.pages
}

// A listing of 65,536 bytes and 256 constants have at most 1,097 pages.
fn print_all(rt: HostRuntime, listing: &[u8], constants: &[u8]) {
    for k in 0..10usize {
        let pages = print_part(rt, listing, constants, 112 * k);
        if pages <= 112 * k + 112 {
            return;
        }
    }
}

// Of each file one byte more is read than it can have, so that a longer one is refused and not cut.
fn print_with_constants(rt: HostRuntime, listing: &[u8]) {
    let mut constants = [0u8; 2049];
    if let Ok(n) = files::read_arg(rt, 2, &mut constants) {
        print_all(rt, listing, &constants[..n]);
    }
}

fn main(rt: HostRuntime) {
    if !files::usage(
        rt,
        files::arg_count(rt) == 3,
        b"print_pages LISTING CONSTANTS",
    ) {
        return;
    }
    let mut listing = [0u8; 65537];
    if let Ok(n) = files::read_arg(rt, 1, &mut listing) {
        print_with_constants(rt, &listing[..n]);
    }
}
