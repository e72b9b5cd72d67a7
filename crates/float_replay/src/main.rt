// Replays a list of cases with the hardware's answers, from standard input, through `float`. Writes of each operation how many cases
// the list holds and how many of them differ, then both for all.
#![tactic(auto)]

ghost use Rattle.std.specs.Prelude.{◌<◌};

mod case;
mod tally;

use replay::report::read_list;

// Reads up to 100 cases, counts them, and answers whether more may follow.
fn replay_some(rt: HostRuntime, t: &mut [u64; 74]) -> bool {
    let mut list = [0u8; 4100];
    let n = read_list(&mut rt.stdin(), &mut list);
    tally::replay(&list[..n], t);
    if n % 41 != 0 {
        let _ = println!(rt; "the last case is cut off");
    }
    n == 4100
}

// Reads to the end of the list, or 100,000 cases.
fn replay_all(rt: HostRuntime, t: &mut [u64; 74]) {
    let mut turns: u64 = 1000;
    while turns > 0 && replay_some(rt, t) {
        turns -= 1;
    }
}

// The operations' names, by their numbers; the last is that of a number that no operation has.
const NAMES: [&str; 36] = [
    "Plus",
    "Minus",
    "Times",
    "Divide",
    "Half",
    "Recip",
    "GreaterThan",
    "LittleThan",
    "Equal",
    "NotEqual",
    "Neg",
    "Abs",
    "Not",
    "And",
    "Or",
    "Xor",
    "Sign",
    "IfElse",
    "Round",
    "Root",
    "MulAdd",
    "PlusComplex real",
    "PlusComplex imaginary",
    "MinusComplex real",
    "MinusComplex imaginary",
    "TimesComplex real",
    "TimesComplex imaginary",
    "DivideComplex real",
    "DivideComplex imaginary",
    "Floor",
    "Ceiling",
    "Trunc",
    "IsZero",
    "GreaterThanEqual",
    "LittleThanEqual",
    "no operation",
];

// The line of operation k, where the list has cases of it. Each part of a line is written by itself: where one cannot be written, the
// next is tried.
fn print_line(rt: HostRuntime, t: &[u64; 74], k: usize)
    requires { k < 36 }
{
    let cases = t[2 * k];
    if cases != 0 {
        let _ = print!(rt; "{}", NAMES[k]);
        let _ = print!(rt; " ");
        let _ = print!(rt; "{cases}");
        let _ = print!(rt; " ");
        let _ = print!(rt; "{}", t[2 * k + 1]);
        let _ = print!(rt; "\n");
    }
}

fn main(rt: HostRuntime) {
    let mut t = [0u64; 74];
    replay_all(rt, &mut t);
    for k in 0..36 {
        print_line(rt, &t, k);
    }
    let _ = print!(rt; "{}", t[72]);
    let _ = print!(rt; " cases, ");
    let _ = print!(rt; "{}", t[73]);
    let _ = print!(rt; " differ\n");
}
