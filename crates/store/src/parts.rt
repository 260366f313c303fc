// The parts of a store that a run has as they are: how they begin, and what a move makes of a cache where it stands.
ghost use Rattle.std.specs.Prelude.{◌≡◌, ◌≤◌, ◌<◌, length, replicate};
ghost use Rattle.figure.specs.Refusals.{most_addresses};
ghost use Rattle.shape.specs.Parts.{over};
ghost use Rattle.decide.specs.Turned.{turned_of};
ghost use Rattle.decide.specs.Effect.{moved_cache};

use decide::Move;
use figure::{ADDRESSES, Address, Engine};
use shape::{Cache, InEntry, OutEntry};

// What stands in unused places of fresh queues, and a cache that holds no word.
pub(crate) const NO_WRITE: OutEntry = OutEntry {
    address: Address(0),
    data: 0,
};

pub(crate) const NO_UPDATE: InEntry = InEntry {
    origin: Engine(0),
    address: Address(0),
    data: 0,
};

pub(crate) const NO_WORDS: Cache = Cache {
    present: [false; ADDRESSES],
    data: [0; ADDRESSES],
};

pub(crate) fn memory_of(table: &[u32]) -> [u32; ADDRESSES]
    requires { length table.now ≤ most_addresses }
    ensures { result ≡ over table.now (replicate most_addresses 0) }
{
    let mut memory = [0; ADDRESSES];
    memory[..table.len()].copy_from_slice(table);
    memory
}

pub(crate) fn cache_moved(c: &mut Cache, m: Move)
    requires { m.entry.address.0 < most_addresses }
    ensures { c.new ≡ moved_cache (turned_of m) c.old }
{
    let a = usize::from(m.entry.address.0);
    c.present[a] = m.held(c.present[a]);
    c.data[a] = m.value(c.data[a]);
}
