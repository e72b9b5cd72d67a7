// Standard input and the files that the program's arguments name. Which bytes C reads and writes no contract can say, so of a file's bytes nothing is promised
// here; what goes wrong is said on standard error, with the file's name. A name that is not UTF-8 names no file, since std opens none by it.
#![tactic(auto)]

ghost use Rattle.std.specs.Prelude.{◌≡◌, ◌≤◌, ⊤, MatchOption, MatchResult, length, ltb};
ghost use Rattle.files.specs.Counts.{IsPrefixLen, IsReadLen};
ghost use Rattle.files.specs.Most.{at_most};

use std::env::{Env, FillError};
use std::fs::{File, OpenOptions};
use std::io;
use std::io::{Print, Read, Write};

pub mod start;

// Writes to standard error. That it cannot be written to is told nowhere.
fn say(rt: HostRuntime, bytes: &[u8]) {
    let _ = Print::write_all(&rt.stderr(), bytes);
}

// Why a call failed, in the system's words. Behind them std writes the error's number, which is left out.
fn say_why(rt: HostRuntime, e: io::Error) {
    match format!(in rt.alloc(); "{e}") {
        Ok(text) => match text.as_str().split_once(" (os error ") {
            Some((words, _)) => say(rt, words.as_bytes()),
            None => say(rt, text.as_str().as_bytes()),
        },
        Err(_) => {
            let _ = rt.eprint(e);
        }
    }
}

// Says on standard error what failed, and why, and gives that failure back. First comes who says so.
pub fn fail(rt: HostRuntime, who: &[u8], name: &[u8], e: io::Error) -> io::Error
    ensures { result ≡ e }
{
    say(rt, who);
    say(rt, name);
    say(rt, b": ");
    say_why(rt, e);
    say(rt, b"\n");
    e
}

// How many arguments there are, the program's name among them, as far as 16.
pub fn arg_count(rt: HostRuntime) -> usize
    ensures { result ≤ 16 }
{
    let mut word = [0u8; 1];
    for i in 0..16usize {
        if let Err(FillError::NotPresent) = rt.arg(i, &mut word) {
            return i;
        }
    }
    16
}

// Room for an argument.
pub fn buffer() -> [u8; 4096]
    ensures { length result ≡ 4096 }
{
    [0u8; 4096]
}

// Puts argument i at the start of the lent bytes; its length, or 0 where it is missing or longer than they are.
pub fn arg(rt: HostRuntime, i: usize, buf: &mut [u8]) -> usize
    ensures { IsPrefixLen result buf.new }
{
    match rt.arg(i, buf) {
        Ok(n) => n,
        Err(_) => 0,
    }
}

// Room for the bytes of a sheet: 1 MiB, and one more by which a longer one is known.
pub fn sheet_room() -> [u8; 1048577]
    ensures { length result ≡ 1048577 }
{
    [0u8; 1048577]
}

// Whether a sheet of which so many bytes were read was read to its end. Where not, says so on standard error: a cut sheet would have another
// answer.
pub fn sheet_fits(rt: HostRuntime, n: usize) -> bool
    ensures { result ≡ ltb n 1048577 }
{
    let right = n < 1048577;
    if !right {
        say(rt, b"tulipcricket: sheet of more than 1048576 bytes\n");
    }
    right
}

// A read that failed, and how many bytes had come by then. Why it failed was said on standard error.
#[derive(Clone, Copy)]
pub struct CutShort {
    pub len: usize,
}

// Reads until the slice is full, the input ends or a read fails: how many bytes came, and that failure too. By a `while`: each turn goes on by as
// many bytes as came.
fn read_on<R: Read>(from: &mut R, buf: &mut [u8]) -> Result<usize, (usize, io::Error)>
    ensures { MatchResult result (λ n. IsPrefixLen n buf.new) (λ e. IsPrefixLen e.0 buf.new) }
{
    let mut done: usize = 0;
    while done < buf.len() {
        match from.read(&mut buf[done..]) {
            Ok(0) => break,
            Ok(n) => done += n,
            Err(e) => return Err((done, e)),
        }
    }
    Ok(done)
}

// Reads until the slice is full, the input ends or a read fails: how many bytes came. Where a read fails, says so on standard error.
pub fn read_all<R: Read>(
    rt: HostRuntime,
    who: &[u8],
    name: &[u8],
    from: &mut R,
    buf: &mut [u8],
) -> Result<usize, CutShort>
    ensures { IsReadLen result buf.new }
{
    match read_on(from, buf) {
        Ok(n) => Ok(n),
        Err((len, e)) => {
            fail(rt, who, name, e);
            Err(CutShort { len })
        }
    }
}

// A file's name as text.
fn text_of(path: &[u8]) -> io::Result<&str> {
    match std::str::from_utf8(path) {
        Ok(text) => Ok(text),
        Err(_) => Err(io::Error::new(io::ErrorKind::InvalidInput, "a name that is not UTF-8")),
    }
}

fn open_to_read(rt: HostRuntime, path: &[u8]) -> io::Result<File> {
    let text = text_of(path)?;
    File::open(&rt, text)
}

fn read_file(rt: HostRuntime, path: &[u8], buf: &mut [u8]) -> Result<usize, CutShort>
    ensures { IsReadLen result buf.new }
{
    match open_to_read(rt, path) {
        Ok(mut file) => read_all(rt, b"tulipcricket: ", path, &mut file, buf),
        Err(e) => {
            fail(rt, b"tulipcricket: ", path, e);
            Err(CutShort { len: 0 })
        }
    }
}

// Reads the file that argument i names into the lent bytes. Of a longer file these are the first bytes.
pub fn read_arg(rt: HostRuntime, i: usize, buf: &mut [u8]) -> Result<usize, CutShort>
    ensures { IsReadLen result buf.new }
{
    let mut path = buffer();
    let n = arg(rt, i, &mut path);
    read_file(rt, &path[..n], buf)
}

// Reads the file that argument 1 names, or standard input where there is no argument.
pub fn read_input(rt: HostRuntime, buf: &mut [u8]) -> Result<usize, CutShort>
    ensures { IsReadLen result buf.new }
{
    if arg_count(rt) == 2 {
        return read_arg(rt, 1, buf);
    }
    read_all(
        rt,
        b"tulipcricket: ",
        b"standard input",
        &mut rt.stdin(),
        buf,
    )
}

// A new file, which no other file stands for.
fn create(rt: HostRuntime, path: &[u8]) -> io::Result<File> {
    let text = text_of(path)?;
    OpenOptions::new()
        .write(true)
        .create_new(true)
        .open(&rt, text)
}

fn remove(rt: HostRuntime, path: &[u8]) -> io::Result<()> {
    let text = text_of(path)?;
    std::fs::remove_file(&rt, text)
}

// Writes all of a new file, to the disk too, and closes it.
fn write_file(file: File, bytes: &[u8]) -> io::Result<()> {
    let mut file = file;
    Write::write_all(&mut file, bytes)?;
    file.sync_all()
}

// Makes and closes a new file. Where that fails, says so on standard error; one that cannot be written whole is removed after that.
fn make_file(rt: HostRuntime, path: &[u8], bytes: &[u8]) -> io::Result<()> {
    let file = create(rt, path).map_err(|e| fail(rt, b"tulipcricket: ", path, e))?;
    let written = write_file(file, bytes).map_err(|e| fail(rt, b"tulipcricket: ", path, e));
    if written.is_err() {
        let _ = remove(rt, path);
    }
    written
}

// The first n bytes, or all where there are fewer.
fn first(bytes: &[u8], n: usize) -> &[u8]
    ensures { length result.now ≡ at_most n (length bytes.now) }
{
    bytes.get(..n).unwrap_or(bytes)
}

// Makes the file that argument i names, of the first n bytes, or of all where there are fewer; how many these are. Where the file cannot be made,
// says so on standard error. A file that exists is left as it is.
pub fn make_arg(rt: HostRuntime, i: usize, bytes: &[u8], n: usize) -> Option<usize>
    ensures { MatchOption result ⊤ (λ long. long ≡ at_most n (length bytes.now)) }
{
    let mut path = buffer();
    let long = arg(rt, i, &mut path);
    let bytes = first(bytes, n);
    match make_file(rt, &path[..long], bytes) {
        Ok(()) => Some(bytes.len()),
        Err(_) => None,
    }
}

// Removes the file that argument i names.
pub fn remove_arg(rt: HostRuntime, i: usize) -> io::Result<()> {
    let mut path = buffer();
    let n = arg(rt, i, &mut path);
    remove(rt, &path[..n])
}

// Writes bytes to standard output; how many these are. Where not all could be written, says so on standard error. First comes who says so.
pub fn write_out(rt: HostRuntime, who: &[u8], bytes: &[u8]) -> usize
    ensures { result ≡ length bytes.now }
{
    if let Err(e) = Print::write_all(&rt.stdout(), bytes) {
        fail(rt, who, b"standard output", e);
    }
    bytes.len()
}

// Prints the first n bytes, or all where there are fewer; how many these are. It cuts them itself, so that programs need no facts on counts.
pub fn print(rt: HostRuntime, bytes: &[u8], n: usize) -> usize
    ensures { result ≡ at_most n (length bytes.now) }
{
    write_out(rt, b"tulipcricket: ", first(bytes, n))
}

// Whether a program was called as it should be. Where not, says so on standard error.
pub fn usage(rt: HostRuntime, right: bool, text: &[u8]) -> bool
    ensures { result ≡ right }
{
    if !right {
        say(rt, b"usage: ");
        say(rt, text);
        say(rt, b"\n");
    }
    right
}

// Whether what was read of the file that argument i names is right. Where not, says so on standard error.
pub fn holds(rt: HostRuntime, i: usize, right: bool, text: &[u8]) -> bool
    ensures { result ≡ right }
{
    if !right {
        let mut path = buffer();
        let n = arg(rt, i, &mut path);
        say(rt, b"tulipcricket: ");
        say(rt, &path[..n]);
        say(rt, b": ");
        say(rt, text);
        say(rt, b"\n");
    }
    right
}
