// What a fresh store is made of.
ghost use Rattle.std.specs.Prelude.{◌≡◌, IfOk};
ghost use Rattle.figure.specs.Refusals.{first_of};
ghost use Rattle.figure.specs.Refused.{number_in};
ghost use Rattle.shape.specs.Fresh.{fresh_of, fresh_refused};

use crate::parts;
use figure::{DEPTH, ENGINES, Refused, Sizes};
use shape::{InQueue, OutQueue, Store};

// Sizes in their range and a memory table of as many words as there are addresses.
#[derive(Clone, Copy)]
pub(crate) struct Given<'a> {
    pub sizes: Sizes,
    pub table: &'a [u32],
    ghost right: { first_of (fresh_refused sizes table.now) ≡ 0 },
}

impl<'a> Given<'a> {
    // 4, 5, 6 or 10, where a store cannot be made.
    pub(crate) fn judge(sizes: Sizes, table: &'a [u32]) -> Result<Given<'a>, Refused>
        ensures number { number_in result ≡ first_of (fresh_refused sizes table.now) }
        ensures same { IfOk result (λ g. (g.sizes ≡ sizes) × (g.table.now ≡ table.now)) }
    {
        figure::judge_sizes(sizes)?;
        if table.len() != usize::from(sizes.addresses) {
            return Err(Refused::TableLength);
        }
        Ok(Given { sizes, table })
    }

    pub(crate) fn store(self) -> Store
        ensures { result ≡ fresh_of self.entry.sizes self.entry.table.now }
    {
        Store {
            sizes: self.sizes,
            memory: parts::memory_of(self.table),
            caches: [parts::NO_WORDS; ENGINES],
            outs: [OutQueue {
                len: 0,
                entries: [parts::NO_WRITE; DEPTH],
            }; ENGINES],
            ins: [InQueue {
                len: 0,
                entries: [parts::NO_UPDATE; DEPTH],
            }; ENGINES],
        }
    }
}
