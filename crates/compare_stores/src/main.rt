// compare_stores STORE OTHER [all]: says `same`, or names the first twenty words that differ, with the word of either store, and how many more
// differ; with a third argument it names them all.
#![tactic(auto)]

ghost use Rattle.std.specs.Prelude.{◌+◌, ◌*◌, ◌≤◌, ◌≡◌, length};
ghost use Rattle.text.specs.Puts.{Puts};
ghost use Rattle.compare_stores.specs.Differences.{next_difference, difference_lines, lines_or_same, one_where, differing, comparison, IsNext};

use reports::{difference_line, more_line};
use text::put::{put, put_line};
use words::word_at;

// The index of the first word from an index on that differs.
fn next_difference(one: &[u8], other: &[u8], from: usize) -> Option<usize>
    ensures { IsNext (next_difference one.now other.now from) result }
{
    for i in from..1602 {
        if word_at(one, 8 * i) != word_at(other, 8 * i) {
            return Some(i);
        }
    }
    None
}

// The lines of the first words that differ, so many at most.
fn put_differences(out: &mut [u8], one: &[u8], other: &[u8], most: usize) -> usize
    requires { 80 * most + 80 ≤ length out.old }
    ensures { (Puts out.old 0 (difference_lines one.now other.now most 0) out.new result) × (result ≤ 80 * most) }
{
    let mut at: usize = 0;
    let mut from: usize = 0;
    for _ in 0..most {
        let Some(i) = next_difference(one, other, from) else {
            return at;
        };
        let line = difference_line(i as u64, word_at(one, 8 * i), word_at(other, 8 * i));
        at = put_line(out, at, line);
        from = i + 1;
    }
    at
}

// These lines, or that the stores are the same.
fn put_lines(out: &mut [u8], one: &[u8], other: &[u8], most: usize) -> usize
    requires { 80 * most + 80 ≤ length out.old }
    ensures { (Puts out.old 0 (lines_or_same (difference_lines one.now other.now most 0)) out.new result) × (result ≤ 80 * most + 5) }
{
    let n = put_differences(out, one, other, most);
    if n == 0 {
        return put(out, 0, b"same\n");
    }
    n
}

// 1 for two words that differ, 0 for two that do not.
fn differs(one: u64, other: u64) -> usize
    ensures { (result ≡ one_where one other) × (result ≤ 1) }
{
    usize::from(one != other)
}

// How many words differ.
fn count_differences(one: &[u8], other: &[u8]) -> usize
    ensures { result ≡ differing one.now other.now 1602 0 }
{
    let mut n: usize = 0;
    for i in 0..1602usize {
        n += differs(word_at(one, 8 * i), word_at(other, 8 * i));
    }
    n
}

// The whole text for two stores.
fn put_comparison(out: &mut [u8], one: &[u8], other: &[u8], most: usize) -> usize
    requires { 80 * most + 160 ≤ length out.old }
    ensures { Puts out.old 0 (comparison most one.now other.now) out.new result }
{
    let at = put_lines(out, one, other, most);
    let n = count_differences(one, other);
    if n <= most {
        return at;
    }
    put_line(out, at, more_line((n - most) as u64))
}

fn print_comparison(rt: HostRuntime, one: &[u8], other: &[u8], most: usize)
    requires { most ≤ 1602 }
{
    let mut out = [0u8; 128320];
    let n = put_comparison(&mut out, one, other, most);
    files::print(rt, &out, n);
}

fn print_stores(rt: HostRuntime, one: &[u8], other: &[u8]) {
    let most = if files::arg_count(rt) == 4 { 1602 } else { 20 };
    print_comparison(rt, one, other, most);
}

// One byte more than a store has is read, so that a longer file is none.
fn compare_with(rt: HostRuntime, one: &[u8]) {
    let mut other = [0u8; 12817];
    let Ok(n) = files::read_arg(rt, 2, &mut other) else {
        return;
    };
    if files::holds(rt, 2, n == 12816, b"not a store, which has 12816 bytes") {
        print_stores(rt, one, &other[..n]);
    }
}

fn main(rt: HostRuntime) {
    let count = files::arg_count(rt);
    if !files::usage(
        rt,
        count == 3 || count == 4,
        b"compare_stores STORE OTHER [all]",
    ) {
        return;
    }
    let mut one = [0u8; 12817];
    let Ok(n) = files::read_arg(rt, 1, &mut one) else {
        return;
    };
    if files::holds(rt, 1, n == 12816, b"not a store, which has 12816 bytes") {
        compare_with(rt, &one[..n]);
    }
}
