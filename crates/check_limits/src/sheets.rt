// Sheets with no real places, made piece by piece.
use words::put;

// At most 3,200 bytes: what does not fit is left out.
#[derive(Clone, Copy)]
pub struct SheetBytes {
    pub bytes: [u8; 3200],
    pub len: usize,
}

// A header with its mode's byte, and no place real.
pub(crate) fn header(mode: u8) -> SheetBytes {
    let mut bytes = [0u8; 3200];
    bytes[0] = 69;
    bytes[2] = 32;
    bytes[4] = mode;
    SheetBytes {
        bytes: bytes,
        len: 69,
    }
}

impl SheetBytes {
    // Records, as bytes.
    pub(crate) fn records(self, s: &[u8]) -> SheetBytes {
        let len = self.len;
        let mut bytes = self.bytes;
        put(&mut bytes, len, s);
        SheetBytes {
            bytes: bytes,
            len: std::num::wrapping_add_usize(len, s.len()),
        }
    }

    // n constants 4000000000000000.
    pub(crate) fn constants(self, n: usize) -> SheetBytes {
        let mut sheet = self;
        for _ in 0..n {
            sheet = sheet.records(b"\x0c\x00\x21\x00\x00\x00\x00\x00\x00\x00\x00\x40");
        }
        sheet
    }

    // Its bytes, as far as there was room.
    pub(crate) fn as_slice(&self) -> &[u8] {
        self.bytes.get(..self.len).unwrap_or(&self.bytes)
    }
}
