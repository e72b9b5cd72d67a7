// Text put into lent bytes, line by line.
ghost use Rattle.std.specs.Prelude.{◌≡◌, take};
ghost use Rattle.mir.specs.Encode.{buf, placed};
ghost use Rattle.text.specs.Puts.{line_text};

use super::line::Line;

// Bytes from a position on; the position after them. Where there is no room for all of them nothing changes.
pub fn put(out: &mut [u8], at: usize, s: &[u8]) -> usize
    ensures { buf out.new result ≡ placed (buf out.old at) s.now }
{
    if out.len() < s.len() || out.len() - s.len() < at {
        return at;
    }
    words::put(out, at, s);
    at + s.len()
}

// The first n bytes, or all where there are fewer.
fn put_first(out: &mut [u8], at: usize, s: &[u8], n: usize) -> usize
    ensures { buf out.new result ≡ placed (buf out.old at) (take n s.now) }
{
    put(out, at, s.get(..n).unwrap_or(s))
}

// A line's text, likewise.
pub fn put_line(out: &mut [u8], at: usize, line: Line) -> usize
    ensures { buf out.new result ≡ placed (buf out.old at) (line_text line) }
{
    put_first(out, at, &line.bytes, line.len)
}
