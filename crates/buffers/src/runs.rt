// A run over one list, with buffers of different lengths.
ghost use Rattle.std.specs.Prelude.{◌≤◌};
ghost use Rattle.stream.specs.Room.{most_account};

use crate::lent;
use std::io::Write;
use stream::front::front;
use stream::hash::hash;
use stream::room::{MOST_ACCOUNT, MOST_TRACE, account_bytes, trace_bytes};
use stream::told;

// How many bytes the longer buffers have to spare: no multiple of a record's or a line's width.
const TRACE_SPARE: usize = 5;

const ACCOUNT_SPARE: usize = 7;

// The list, and the buffers of which each run is lent the front.
#[derive(Drop)]
struct Runs<'a, W> {
    writer: &'a mut W,
    list: &'a [u8],
    trace: &'a mut [u8],
    account: &'a mut [u8],
}

impl<W: Write> Runs<'_, W> {
    // Prints the line of a run that is lent so many bytes for the trace and for the account; how many of the latter it took.
    fn tell(&mut self, name: &str, trace_room: usize, account_room: usize) -> usize
        ensures { result ≤ most_account }
    {
        let t_end = trace_room.min(self.trace.len());
        let a_end = account_room.min(self.account.len());
        let trace = &mut self.trace[..t_end];
        let account = &mut self.account[..a_end];
        lent::fill(trace);
        lent::fill(account);
        let said = history::run(self.list, trace, account);
        let (t, a) = said.map_or(
            (0, 0),
            |c| (trace_bytes(self.list), account_bytes(c.events)),
        );
        let c = said.unwrap_or_default();
        let is_untouched = lent::is_untouched(trace, t) && lent::is_untouched(account, a);
        let rest = if is_untouched { "untouched" } else { "TOUCHED" };
        let _ = writeln!(
            self.writer,
            "{name} {} {} {} {} {} {rest} {:016x} {:016x}",
            told::number(&said),
            c.accepted,
            c.refused,
            c.events,
            c.settled,
            hash(front(trace, t)),
            hash(front(account, a))
        );
        a
    }

    // The runs whose buffers are too short, where there is a byte to take away.
    fn tell_short(&mut self, t: usize, a: usize) {
        let Some(t_short) = t.checked_sub(1) else {
            return;
        };
        self.tell("run short trace", t_short, a);
        let Some(a_short) = a.checked_sub(1) else {
            return;
        };
        self.tell("run short account", t, a_short);
        self.tell("run both short", t_short, a_short);
    }
}

pub(crate) fn tell<W: Write>(writer: &mut W, list: &[u8]) {
    let mut runs = Runs {
        writer,
        list,
        trace: &mut [0u8; MOST_TRACE + TRACE_SPARE],
        account: &mut [0u8; MOST_ACCOUNT + ACCOUNT_SPARE],
    };
    let a = runs.tell("run full", MOST_TRACE, MOST_ACCOUNT);
    if lists::reader::read(list).is_err() {
        runs.tell("run nothing", 0, 0);
        return;
    }
    let t = trace_bytes(list);
    runs.tell("run exact", t, a);
    runs.tell("run longer", t + TRACE_SPARE, a + ACCOUNT_SPARE);
    runs.tell_short(t, a);
}
