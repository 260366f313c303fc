// A run in words: the list's head, and a line for each action with what came of it.
#![tactic(auto, using(crate::proofs::Cursor::appending), unfolding(crate::specs::Actions::sizes_text, crate::specs::Actions::head_line, crate::specs::Actions::step_lines, crate::specs::Actions::show_text, crate::specs::Actions::show_said))]

ghost use Rattle.std.specs.Prelude.{◌≡◌, ◌≤◌, length};
ghost use Rattle.lists.specs.Read.{read_of};
ghost use Rattle.report.specs.Text.{series};
ghost use Rattle.report.specs.Cursor.{appended};
ghost use Rattle.report.specs.Actions.{sizes_text, value_field, head_line, step_lines, show_said, most_show_text};

use crate::events::{put_refused, put_taken};
use crate::step::put_step;
use crate::text::Text;
use demands::Counts;
use figure::Sizes;
use lists::bytes::{RECORD, record_at};
use lists::memory::memory_of;
use lists::reader::read;
use lists::walker::start;

// The sizes of a list, and zeros where the reader refuses it.
fn sizes_of(list: &[u8]) -> Sizes
    ensures { result ≡ (read_of list.now).sizes }
{
    read(list).map(|l| l.sizes).unwrap_or_default()
}

fn put_sizes(to: &mut Text, z: Sizes)
    ensures { to.new ≡ appended (sizes_text z) to.old }
{
    to.labelled(b"engines ", u64::from(z.engines));
    to.labelled(b" addresses ", u64::from(z.addresses));
    to.labelled(b" depth ", u64::from(z.depth));
    to.text(b" memory");
}

fn put_values(to: &mut Text, values: &[u32])
    ensures { to.new ≡ appended (series (value_field values.now) (length values.now)) to.old }
{
    for value in values {
        to.field(u64::from(*value));
    }
}

fn put_head(to: &mut Text, list: &[u8])
    ensures { to.new ≡ appended (head_line list.now) to.old }
{
    let z = sizes_of(list);
    let table = memory_of(list);
    put_sizes(to, z);
    put_values(to, &table[..usize::from(z.addresses)]);
    to.byte(b'\n');
}

fn put_step_lines(to: &mut Text, list: &[u8], trace: &[u8])
    ensures { to.new ≡ appended (step_lines list.now trace.now) to.old }
{
    for (k, action) in start(list).enumerate() {
        to.decimal(k as u64 + 1);
        put_step(to, action, record_at(trace, RECORD * k));
        to.byte(b'\n');
    }
}

// Kept: a refusal by its number, which `show_text` hands on.
pub(crate) fn put_show(
    to: &mut Text,
    list: &[u8],
    said: Result<Counts, u8>,
    trace: &[u8],
    account: &[u8],
)
    ensures text { to.new ≡ appended (show_said list.now said trace.now account.now) to.old }
    ensures short { length (show_said list.now said trace.now account.now) ≤ most_show_text }
{
    match said {
        Ok(c) => {
            put_head(to, list);
            put_step_lines(to, list, trace);
            put_taken(to, c, account);
        }
        Err(number) => put_refused(to, number),
    }
}
