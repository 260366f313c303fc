// A 4-byte number and an 8-byte record, big-endian, in a slice. A byte past the end reads as 0; what does not fit is not written.
ghost use Rattle.std.specs.Prelude.{◌≡◌, drop};
ghost use Rattle.lists.specs.Bytes.{byte_at, u32_at, u32_bytes, put};
ghost use Rattle.lists.specs.Record.{record_at, record_bytes};

use figure::{Address, Engine, Record};

// How many bytes a number has.
pub const WORD: usize = 4;

// How many bytes a record has.
pub const RECORD: usize = 8;

// What stands from a place on, nothing where the place is past the end.
pub(crate) fn from_place(s: &[u8], at: usize) -> &[u8]
    ensures { result.now ≡ drop at s.now }
{
    s.get(at..).unwrap_or(&[])
}

fn byte_at(s: &[u8], at: usize) -> u8
    ensures { result ≡ byte_at s.now at }
{
    s.get(at).copied().unwrap_or(0)
}

// The 4-byte number at a place.
#[tactic(auto, unfolding(crate::specs::Bytes::u32_at))]
pub fn get_u32(s: &[u8], at: usize) -> u32
    ensures { result ≡ u32_at s.now at }
{
    let word = from_place(s, at);
    u32::from_be_bytes([
        byte_at(word, 0),
        byte_at(word, 1),
        byte_at(word, 2),
        byte_at(word, 3),
    ])
}

// The record at a place.
pub fn record_at(s: &[u8], at: usize) -> Record
    ensures { result ≡ record_at s.now at }
{
    let record = from_place(s, at);
    Record {
        kind: byte_at(record, 0),
        engine: Engine(byte_at(record, 1)),
        origin: Engine(byte_at(record, 2)),
        address: Address(byte_at(record, 3)),
        data: get_u32(record, WORD),
    }
}

// Bytes put at a place, if they fit there.
#[tactic(auto, unfolding(crate::specs::Bytes::put))]
pub(crate) fn put(out: &mut [u8], at: usize, bytes: &[u8])
    ensures { out.new ≡ put out.old at bytes.now }
{
    let Some(end) = at.checked_add(bytes.len()) else {
        return;
    };
    if end <= out.len() {
        out[at..end].copy_from_slice(bytes);
    }
}

// Kept: put_u32, put_record and put_line stand apart, one call of `put` each: a trait over the three would need an impl of more lines for each, and Demand1 of promises names each.
pub fn put_u32(out: &mut [u8], at: usize, x: u32)
    ensures { out.new ≡ put out.old at (u32_bytes x) }
{
    put(out, at, &x.to_be_bytes());
}

pub(crate) fn record_bytes(r: Record) -> [u8; RECORD]
    ensures { result ≡ record_bytes r }
{
    let [a, b, c, d] = r.data.to_be_bytes();
    [r.kind, r.engine.0, r.origin.0, r.address.0, a, b, c, d]
}

pub fn put_record(out: &mut [u8], at: usize, r: Record)
    ensures { out.new ≡ put out.old at (record_bytes r) }
{
    put(out, at, &record_bytes(r));
}
