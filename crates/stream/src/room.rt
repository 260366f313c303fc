// How long the buffers are that a run is handed and lent.
ghost use Rattle.std.specs.Prelude.{◌≤◌};
ghost use Rattle.stream.specs.Room.{most_trace, most_account};

use lists::bytes::RECORD;
use lists::line::LINE;
use lists::reader::{MOST_ACTIONS, MOST_LIST};

// What a run is handed at most: the largest list, and one byte more, by which a longer one is known.
pub const MOST_HELD: usize = MOST_LIST + 1;

// The trace and the account of every list fit into so many bytes.
pub const MOST_TRACE: usize = RECORD * MOST_ACTIONS;

pub const MOST_ACCOUNT: usize = LINE * MOST_ACTIONS;

// The bytes of the trace of a list's run, none where the reader refuses the list. The reader never says more actions than a list has.
pub fn trace_bytes(list: &[u8]) -> usize
    ensures { result ≤ most_trace }
{
    lists::reader::read(list).map_or(0, |l| RECORD * l.actions.min(MOST_ACTIONS))
}

// The bytes of the account of a run that answered so many events: a list has no more of them than actions.
pub fn account_bytes(events: usize) -> usize
    ensures { result ≤ most_account }
{
    LINE * events.min(MOST_ACTIONS)
}
