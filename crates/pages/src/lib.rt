// A listing and its constants on pages of paper.
#![tactic(auto)]

ghost use Rattle.std.specs.Prelude.{◌-◌, ◌*◌, ◌≤◌, ◌≡◌, length};
ghost use Rattle.records.specs.Record.{records};
ghost use Rattle.text.specs.Puts.{Puts};
ghost use Rattle.player.specs.Positions.{Behind};
ghost use Rattle.pages.specs.Pages.{page_count, pages_from};
ghost use Rattle.pages.specs.Printed.{from_record0, rows_of, least, printed, printed_part};
ghost use Rattle.pages.specs.Values.{whole};

pub mod call;
mod columns;

use columns::{left_of, put_lines};
use player::judge;

// What laying out gives back: 0, the count of records and the count of pages, or a refusal's number and index.
#[derive(Clone, Copy)]
pub struct PagesAnswer {
    pub number: u8,
    pub index: usize,
    pub pages: usize,
}

pub(crate) fn refuse(number: u8, index: usize) -> PagesAnswer
    ensures { result ≡ record { number = number; index = index; pages = 0 } }
{
    PagesAnswer {
        number: number,
        index: index,
        pages: 0,
    }
}

fn lesser(a: usize, b: usize) -> usize
    ensures { result ≡ least a b }
{
    if a < b { a } else { b }
}

// The position of record k of a listing that is accepted from record 0.
fn position(listing: &[u8], constants: &[u64], k: usize) -> usize
    requires constants_value { (from_record0 listing.now constants.now).number ≡ 0 }
    requires k_in_bounds { k ≤ length (records (length constants.now) listing.now).items }
    ensures { Behind listing.now 0 k result }
{
    if k == 0 {
        return 0;
    }
    let v = judge(listing, constants.len(), k, 1602);
    v.from
}

// Puts n pages from page `first` on, of a listing that is accepted from record 0; where they end.
fn put_pages(out: &mut [u8], listing: &[u8], constants: &[u64], first: usize, n: usize) -> usize
    requires constants_value { (from_record0 listing.now constants.now).number ≡ 0 }
    requires n_bound { n ≤ page_count (rows_of listing.now constants.now) - first }
    requires n_in_bounds { 4380 * n ≤ length out.old }
    ensures { Puts out.old 0 (pages_from first n (rows_of listing.now constants.now)) out.new result }
{
    if n == 0 {
        return 0;
    }
    let line = 60 * first;
    let from = position(listing, constants, left_of(line, constants.len()));
    put_lines(out, constants, listing, line, from, 60 * n)
}

// Lays out at most `most` pages from page `first` on.
pub fn part(
    listing: &[u8],
    constants: &[u64],
    first: usize,
    most: usize,
    out: &mut [u8],
) -> PagesAnswer
    ensures { whole result out.new ≡ printed_part first most listing.now constants.now out.old }
{
    let v = judge(listing, constants.len(), 0, 1602);
    if v.number != 0 {
        return refuse(v.number, v.index);
    }
    let pages = (constants.len() + v.index + 59) / 60;
    let n = lesser(most, left_of(pages, first));
    if out.len() < 4380 * n {
        return refuse(7, 0);
    }
    put_pages(out, listing, constants, first, n);
    PagesAnswer {
        number: 0,
        index: v.index,
        pages: pages,
    }
}

// Lays a listing and its constants out on pages. With at most 65,536 bytes and 256 constants there are fewer than 65,536.
pub fn pages(listing: &[u8], constants: &[u64], out: &mut [u8]) -> PagesAnswer
    ensures { whole result out.new ≡ printed listing.now constants.now out.old }
{
    part(listing, constants, 0, 65536, out)
}
