// The account's lines: 12 bytes each, a read or a write and its number.
ghost use Rattle.std.specs.Prelude.{◌≡◌, ◌+◌, ◌*◌, ◌<◌, ◌≤◌, length};
ghost use Rattle.std.specs.List.{All};
ghost use Rattle.figure.specs.Ledger.{wn};
ghost use Rattle.figure.specs.Refusals.{most_actions};
ghost use Rattle.lists.specs.Bytes.{put, rows, laid};
ghost use Rattle.lists.specs.Line.{line_width};
ghost use Rattle.history.specs.Pieces.{line_of, number_in, placed_line};
ghost use Rattle.shape.specs.Turns.{action_at};

use crate::events::Events;
use figure::{Engine, Kind, Record, WriteNumber};
use lists::line::{LINE, Line, NO_NUMBER};

// Traced events, each with its key, and the order of those in the account: their indices.
// Kept: the keys stand beside the events and not in one struct with each, since `sort::order` takes keys alone, as one slice.
#[derive(Clone, Copy)]
pub struct Placed<'a> {
    pub events: Events<'a>,
    pub keys: &'a [u16],
    pub order: &'a [u16],
    ghost within: { All (λ j. j < length keys.now) order.now },
    ghost few: { length order.now ≤ most_actions },
}

impl<'a> Placed<'a> {
    // The line of each event in the order.
    pub fn put_lines(&self, out: &mut [u8])
        requires { line_width * length self.now.order.now ≤ length out.old }
        ensures { out.new ≡ laid (rows (placed_line (action_at self.now.events.bytes.now) self.now.keys.now) self.now.order.now) out.old }
    {
        for (p, &j) in self.order.iter().enumerate() {
            let j = j as usize;
            let e = self.events.at(j);
            let number = number_in(self.keys.len(), self.keys[j]);
            put_line(out, LINE * p, e, number);
        }
    }
}

// The line of a traced event: a read as it is, a publication as the write that it publishes.
fn put_line(out: &mut [u8], at: usize, e: Record, number: WriteNumber)
    requires { at + line_width ≤ length out.old }
    ensures { out.new ≡ put out.old at (line_of number.0 e) }
{
    let kind = if e.is(Kind::Read) {
        e.kind
    } else {
        Kind::Write.code()
    };
    let event = Record {
        kind,
        origin: Engine(0),
        ..e
    };
    lists::line::put_line(out, at, Line { event, number });
}

// An event's key is its number in the account.
// Kept: a named function and no From in figure, which would give every crate the conversion that the sorts keep apart (docs/DECISIONS.md 47); tests/sorts/slot-number-of tries it.
fn number_of(key: u16) -> WriteNumber
    ensures { result ≡ wn key }
{
    WriteNumber(u32::from(key))
}

// The number of an event with that key, of n events: past n stand the writes that have none.
fn number_in(n: usize, key: u16) -> WriteNumber
    ensures { result ≡ wn (number_in n key) }
{
    if usize::from(key) <= n {
        return number_of(key);
    }
    WriteNumber(NO_NUMBER)
}
