// What the writer is handed before the first list: each of its refusals, their order, and the outputs that are just long enough.
use crate::{lent, writes};
use figure::Sizes;
use lists::reader::MOST_LIST;
use std::array;
use std::io::Write;
use stream::front::front;
use stream::hash::hash;
use stream::room::MOST_TRACE;

// Engines, addresses, depth, how many words the memory table has, how many bytes the actions have, and how many the output has.
#[derive(Clone, Copy)]
struct Row(u8, u8, u8, usize, usize, usize);

static ROWS: [Row; 30] = [
    Row(0, 1, 1, 1, 8, 64),
    Row(9, 1, 1, 1, 8, 64),
    Row(255, 1, 1, 1, 8, 64),
    Row(1, 0, 1, 0, 8, 64),
    Row(1, 65, 1, 65, 8, 400),
    Row(1, 255, 1, 65, 8, 400),
    Row(1, 1, 0, 1, 8, 64),
    Row(1, 1, 33, 1, 8, 64),
    Row(1, 1, 255, 1, 8, 64),
    Row(1, 1, 1, 0, 8, 64),
    Row(1, 1, 1, 2, 8, 64),
    Row(8, 64, 32, 63, 8, 400),
    Row(8, 64, 32, 65, 8, 400),
    Row(1, 1, 1, 1, 1, 64),
    Row(1, 1, 1, 1, 7, 64),
    Row(1, 1, 1, 1, 9, 64),
    Row(1, 1, 1, 1, 16392, 16600),
    Row(1, 1, 1, 1, 16384, 16600),
    Row(1, 1, 1, 1, 0, 0),
    Row(1, 1, 1, 1, 0, 11),
    Row(1, 1, 1, 1, 0, 12),
    Row(8, 64, 32, 64, 16384, 16647),
    Row(8, 64, 32, 64, 16384, 16648),
    Row(9, 65, 33, 0, 16393, 0),
    Row(1, 65, 33, 0, 16393, 0),
    Row(1, 1, 33, 0, 16393, 0),
    Row(1, 1, 1, 0, 16393, 0),
    Row(1, 1, 1, 1, 16393, 0),
    Row(1, 1, 1, 1, 16392, 0),
    Row(1, 1, 1, 1, 16384, 0),
];

// Room for the largest table, the most actions and the longest output of a row.
const TABLE_ROOM: usize = 65;

const ACTIONS_ROOM: usize = MOST_TRACE + 9;

const OUTPUT_ROOM: usize = MOST_LIST;

// Lends the output to the writer, with the first words of the table and the first bytes of the actions, and prints what it answers.
fn tell_row<W: Write>(writer: &mut W, row: Row, table: &[u32], actions: &[u8], out: &mut [u8]) {
    let Row(engines, addresses, depth, words, bytes, room) = row;
    let sizes = Sizes {
        engines,
        addresses,
        depth,
    };
    let end = room.min(out.len());
    let out = &mut out[..end];
    let _ = write!(
        writer,
        "write {engines} {addresses} {depth} {words} {bytes} {room} is "
    );
    let (table, actions) = (front(table, words), front(actions, bytes));
    let said = writes::tell_answer(writer, sizes, table, actions, out);
    let _ = writeln!(writer, " {:016x}", hash(front(out, said.unwrap_or(0))));
}

pub(crate) fn tell_all<W: Write>(writer: &mut W) {
    // Words whose four bytes differ.
    let table: [u32; TABLE_ROOM] = array::from_fn(|i| 0x01020304 + i as u32);
    let mut actions = [0u8; ACTIONS_ROOM];
    lent::fill(&mut actions);
    let mut out = [0u8; OUTPUT_ROOM];
    for row in ROWS.iter() {
        tell_row(writer, *row, &table, &actions, &mut out);
    }
}
