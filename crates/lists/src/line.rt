// A line of the account: 12 bytes, an event and its slot or write number, big-endian, in a slice. A byte past the end reads as 0; what does not fit is not written.
ghost use Rattle.std.specs.Prelude.{◌≡◌};
ghost use Rattle.lists.specs.Bytes.{put};
ghost use Rattle.lists.specs.Line.{line_at, line_bytes};

use crate::bytes::{RECORD, from_place, get_u32, put, record_at, record_bytes};
use figure::{Record, WriteNumber};

// How many bytes a line has.
pub const LINE: usize = 12;

// The number of a write that is not published.
// Kept: a number and no Option, since the theorem line-lawful has every line read back from its bytes, one with this number too.
pub const NO_NUMBER: u32 = 0xFFFFFFFF;

// An event of the account, and its slot or write number.
#[derive(Clone, Copy, Debug, PartialEq, Eq)]
pub struct Line {
    pub event: Record,
    pub number: WriteNumber,
}

// The line at a place.
pub fn line_at(s: &[u8], at: usize) -> Line
    ensures { result ≡ line_at s.now at }
{
    let line = from_place(s, at);
    Line {
        event: record_at(line, 0),
        number: WriteNumber(get_u32(line, RECORD)),
    }
}

fn line_bytes(l: Line) -> [u8; LINE]
    ensures { result ≡ line_bytes l }
{
    let mut bytes = [0; LINE];
    bytes[..RECORD].copy_from_slice(&record_bytes(l.event));
    bytes[RECORD..].copy_from_slice(&l.number.0.to_be_bytes());
    bytes
}

pub fn put_line(out: &mut [u8], at: usize, l: Line)
    ensures { out.new ≡ put out.old at (line_bytes l) }
{
    put(out, at, &line_bytes(l));
}
