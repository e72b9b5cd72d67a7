// A record of realness as bytes.
ghost use Rattle.std.specs.Prelude.{◌≡◌, map};
ghost use Rattle.words.specs.Bytes.{stored};
ghost use Rattle.mir.specs.Encode.{flag_byte};
ghost use Rattle.lowering.specs.RecordBytes.{record_bytes};

use crate::realness::Realness;
use mir::writer::flag_byte;
use words::put;

// Flags as bytes, 1 where one is set, stored from at on, where they fit.
pub fn put_flags(out: &mut [u8], at: usize, flags: &[bool])
    ensures { out.new ≡ stored out.old at (map flag_byte flags.now) }
{
    if out.len() < flags.len() || out.len() - flags.len() < at {
        return;
    }
    for (i, flag) in flags.iter().enumerate() {
        out[at + i] = flag_byte(*flag);
    }
}

// The registers' flags, then the places.
pub fn record_bytes(real: Realness) -> [u8; 96]
    ensures { result ≡ record_bytes real }
{
    let mut bytes = [0u8; 96];
    let regs = real.regs;
    put_flags(&mut bytes, 0, &regs);
    let places = real.places;
    put(&mut bytes, 32, &places);
    bytes
}
