// The run over a list: its trace, its account and its counts.
#![tactic(auto)]

ghost use Rattle.std.specs.Prelude.{◌≡◌, ◌+◌, ◌≤◌, length};
ghost use Rattle.figure.specs.Refusals.{most_actions};
ghost use Rattle.lists.specs.Bytes.{rows, laid};
ghost use Rattle.lists.specs.Record.{record_bytes};
ghost use Rattle.shape.specs.Turns.{action_at};
ghost use Rattle.history.specs.Pieces.{count_of, Admitted, Arrangeable, Arranged, Handed};
ghost use Rattle.demands.specs.Run.{run_trace, answered_by, Ran};

use demands::Counts;
use events::Events;
use figure::{Refused, Sizes};
use lines::Placed;
use lists::bytes::RECORD;
use lists::line::LINE;
use lists::reader::Layout;

mod events;
mod lines;
mod marks;

// Everything that can refuse is known before the first byte goes into a lent buffer. A short list has little scratch to clear.
pub fn run(list: &[u8], trace: &mut [u8], account: &mut [u8]) -> Result<Counts, Refused>
    ensures { Ran list.now trace.old account.old (answered_by result) trace.new account.new }
{
    let l = lists::reader::read(list)?;
    if trace.len() < RECORD * l.actions {
        return Err(Refused::TraceShort);
    }
    // Kept: two numbers a size: no form is plainer, since Rattle has no computed const argument (TABLE is N + 9); six sizes, so that a short list clears little.
    match l.actions {
        0..=64 => run_in::<64, 73>(list, l, trace, account),
        65..=128 => run_in::<128, 137>(list, l, trace, account),
        129..=256 => run_in::<256, 265>(list, l, trace, account),
        257..=512 => run_in::<512, 521>(list, l, trace, account),
        513..=1024 => run_in::<1024, 1033>(list, l, trace, account),
        _ => run_in::<2048, 2057>(list, l, trace, account),
    }
}

// The run of a list of up to N actions, in scratch for as many: their trace, its events' keys and order, and the sort's table, with an entry for 0 to N and for each of 8 engines.
fn run_in<const N: usize, const TABLE: usize>(
    list: &[u8],
    l: Layout,
    trace: &mut [u8],
    account: &mut [u8],
) -> Result<Counts, Refused>
    requires admitted { Admitted list.now l trace.old }
    requires fits { l.actions ≤ N }
    requires few { N ≤ most_actions }
    requires table { TABLE ≡ N + 9 }
    ensures { Ran list.now trace.old account.old (answered_by result) trace.new account.new }
{
    let n = l.actions;
    let m = n + l.sizes.engines as usize + 1;
    let mut events = [[0u8; RECORD]; N];
    let mut keys = [0u16; N];
    let mut order = [0u16; N];
    let mut table = [0u16; TABLE];
    let events = &mut events.as_flattened_mut()[..RECORD * n];
    let keys = &mut keys[..n];
    let table = &mut table[..m];
    write_trace(list, l, events);
    let events = Events { bytes: events };
    let c = arrange(&events, l.sizes, keys, &mut order, table);
    let placed = Placed {
        events,
        keys,
        order: &order[..c.events],
    };
    hand_over(&placed, c, trace, account)
}

// Trace and account go into the lent buffers; or, where the account has no room, neither does.
// Kept: the two buffers go side by side through `run`, `run_in` and here, since what may not change needs it: `run` is public, and its clause names each.
fn hand_over(p: &Placed, c: Counts, trace: &mut [u8], account: &mut [u8]) -> Result<Counts, Refused>
    requires room { length p.now.events.bytes.now ≤ length trace.old }
    ensures { Handed p.now.events.bytes.now p.now.keys.now p.now.order.now c trace.old account.old (answered_by result) trace.new account.new }
{
    if account.len() < LINE * p.order.len() {
        return Err(Refused::OutputShort);
    }
    let events = p.events.bytes;
    trace[..events.len()].copy_from_slice(events);
    p.put_lines(account);
    Ok(c)
}

// The trace of a list that the reader takes.
fn write_trace(list: &[u8], l: Layout, events: &mut [u8])
    requires { Admitted list.now l events.old }
    ensures { events.new ≡ laid (rows record_bytes (run_trace list.now)) events.old }
{
    let table = lists::memory::memory_of(list);
    let m = l.sizes.addresses as usize;
    let at = l.actions_at;
    store::turns_from_fresh(l.sizes, &table[..m], &list[at..], events).unwrap();
}

// The order of the account, an index for each of its events, and its counts: one stable sort of the trace's events, a key for each.
fn arrange(
    events: &Events,
    z: Sizes,
    keys: &mut [u16],
    order: &mut [u16],
    table: &mut [u16],
) -> Counts
    requires { Arrangeable (count_of events.now.bytes.now) z keys.old order.old table.old }
    ensures { Arranged (action_at events.now.bytes.now) (length keys.old) z result keys.new order.new }
{
    let tally = marks::mark_all(events, keys);
    let low = marks::lowest_floor(tally.ledger, z.engines);
    let placed = sort::order(keys, table, order);
    let accepted = tally.accepted;
    Counts {
        accepted,
        refused: keys.len() - accepted,
        events: placed,
        settled: table[low.0 as usize] as usize,
    }
}
