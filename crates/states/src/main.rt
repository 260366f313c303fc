// Takes each state and action on standard input through the step by value and through the step in place, and prints what they answer.
#![tactic(auto)]

mod coded;

use coded::Coded;
use figure::{ADDRESSES, DEPTH, ENGINES, Record};
use lists::bytes::{RECORD, WORD, put_record, record_at};
use shape::Store;
use std::io::{Read, Write};
use stream::front::front;
use stream::hash::hash;
use stream::told;
use stream::window::{CutShort, read_full};

// How many bytes the memory, a cache, an out queue and an in queue have.
const MEMORY: usize = WORD * ADDRESSES;

const CACHE: usize = ADDRESSES + MEMORY;

const OUT: usize = 1 + DEPTH * (1 + WORD);

const IN: usize = 1 + DEPTH * (2 + WORD);

// A state is the three sizes, the memory, and the engines' caches and queues. An item is a state and then an action.
const STATE: usize = 3 + MEMORY + ENGINES * (CACHE + OUT + IN);

const ITEM: usize = STATE + RECORD;

// A line has fewer bytes: a number of two digits, two of sixteen, and a word.
const MOST_LINE: usize = 64;

fn state_bytes(s: Store) -> [u8; STATE] {
    let mut bytes = [0; STATE];
    s.write(&mut &mut bytes[..]);
    bytes
}

// The eight bytes of an event as one number.
fn event_number(r: Record) -> u64 {
    let mut bytes = [0; RECORD];
    put_record(&mut bytes, 0, r);
    u64::from_be_bytes(bytes)
}

// A line: the number, the event, a hash of the next state, and whether both steps say the same.
fn answer<W: Write>(writer: &mut W, item: &[u8; ITEM]) {
    let s = Store::read(&mut item.as_slice());
    let x = record_at(item, STATE);
    let (after, said) = store::step(s, x);
    let mut kept = s;
    let said_in_place = store::step_in_place(&mut kept, x);
    let is_same = said == said_in_place && after == kept;
    let mut line = [0; MOST_LINE];
    let mut room = &mut line[..];
    let _ = writeln!(
        room,
        "{} {:016x} {:016x} {}",
        told::number(&said),
        event_number(said.unwrap_or_default()),
        hash(&state_bytes(after)),
        told::whether_same(is_same)
    );
    let left = room.len();
    told::text(writer, front(&line, MOST_LINE.saturating_sub(left)));
}

// The next item, where the input does not end before it.
fn next_item<R: Read>(reader: &mut R) -> Result<Option<[u8; ITEM]>, CutShort> {
    let mut item = [0; ITEM];
    match read_full(reader, &mut item) {
        0 => Ok(None),
        ITEM => Ok(Some(item)),
        n => Err(CutShort { missing: ITEM - n }),
    }
}

// Kept: a count that no input uses up, since a proved loop has to end and no function may gain a Wait bound.
// Kept: a loop of its own beside those of `buffers` and `replay`: an item has one length and no count before it, so it is no chunk.
fn answer_all<R: Read, W: Write>(reader: &mut R, writer: &mut W) -> Result<(), CutShort> {
    for _ in 0..u64::MAX {
        let Some(item) = next_item(reader)? else {
            break;
        };
        answer(writer, &item);
    }
    Ok(())
}

fn main(rt: HostRuntime) {
    let mut writer = rt.stdout();
    if let Err(e) = answer_all(&mut rt.stdin(), &mut writer) {
        let _ = writeln!(writer, "{e}");
    }
}
