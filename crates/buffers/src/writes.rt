// The writer lent an output, and a list that the reader takes, written again into outputs of different lengths.
use crate::lent;
use figure::{Refused, Sizes};
use lists::reader::{Layout, MOST_LIST};
use std::io::Write;
use stream::front::front;
use stream::told;

// How many bytes the longer output has to spare.
const SPARE: usize = 11;

// Lends the output to the writer, and prints the number and the length that it answers and whether it left the rest untouched.
pub(crate) fn tell_answer<W: Write>(
    writer: &mut W,
    sizes: Sizes,
    table: &[u32],
    actions: &[u8],
    out: &mut [u8],
) -> Result<usize, Refused> {
    lent::fill(out);
    let said = lists::writer::write(sizes, table, actions, out);
    let length = said.unwrap_or(0);
    let is_untouched = lent::is_untouched(out, length);
    let rest = if is_untouched { "untouched" } else { "TOUCHED" };
    let _ = write!(writer, "{} {length} {rest}", told::number(&said));
    said
}

// Writes the list again and prints its line.
fn write_line<W: Write>(writer: &mut W, name: &str, list: &[u8], l: Layout, out: &mut [u8]) {
    let table = lists::memory::memory_of(list);
    let words = front(&table, usize::from(l.sizes.addresses));
    let actions = &list[l.actions_at.min(list.len())..];
    let _ = write!(writer, "write {name} ");
    if let Ok(length) = tell_answer(writer, l.sizes, words, actions, out) {
        let same = told::whether_same(list == front(out, length));
        let _ = write!(writer, " {same}");
    }
    let _ = writeln!(writer);
}

pub(crate) fn tell<W: Write>(writer: &mut W, list: &[u8]) {
    let Ok(l) = lists::reader::read(list) else {
        return;
    };
    let n = list.len();
    let Some(short) = n.checked_sub(1) else {
        return;
    };
    if MOST_LIST < n {
        return;
    }
    let mut out = [0u8; MOST_LIST + SPARE];
    write_line(writer, "short", list, l, &mut out[..short]);
    write_line(writer, "exact", list, l, &mut out[..n]);
    write_line(writer, "longer", list, l, &mut out[..n + SPARE]);
}
