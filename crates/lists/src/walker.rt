// The walker: it holds a list's bytes and its place, and hands out one action after another.
ghost use Rattle.std.specs.Prelude.{◌≡◌, ⊤, length, take, drop};
ghost use Rattle.std.specs.Iterator.{YieldsFirst, MakesProgress, item_count};
ghost use Rattle.lists.specs.Read.{actions_of};
ghost use Rattle.lists.specs.Walk.{handed, ahead, Took, WalkerTook};

use crate::bytes::{RECORD, record_at};
use crate::reader::read;
use figure::Record;

// What one step of a walk gives: the action that was found, if any is left, and the place after it.
#[derive(Clone, Copy, Debug, PartialEq, Eq)]
pub struct Taken {
    pub found: Option<Record>,
    pub after: usize,
}

#[derive(Clone, Copy, Debug, PartialEq, Eq)]
pub struct Walker<'a> {
    pub list: &'a [u8],
    pub place: usize,
}

// The action at a place, for callers that hold no walker.
// Kept: a function beside the walker, since the theorems action_at_answers and action_at_one of promises are about it; the same for taken_at.
pub fn action_at(list: &[u8], place: usize) -> Option<Record>
    ensures { handed result ≡ take 1 (drop place (actions_of list.now)) }
{
    let Ok(l) = read(list) else {
        return None;
    };
    if place < l.actions {
        Some(record_at(list, l.actions_at + RECORD * place))
    } else {
        None
    }
}

// The work of `next`, on the slice and the number.
pub fn taken_at(list: &[u8], place: usize) -> Taken
    ensures { Took list.now place result.found result.after }
{
    match action_at(list, place) {
        Some(action) => Taken {
            found: Some(action),
            after: place + 1,
        },
        None => Taken {
            found: None,
            after: place,
        },
    }
}

pub fn start(list: &[u8]) -> Walker<'_>
    ensures { (result.list ≡ list.entry) × (result.place ≡ 0) }
{
    Walker { list, place: 0 }
}

impl<'a> Iterator for Walker<'a> {
    type Item = Record;

    ghost next_gives = { YieldsFirst ahead };

    ghost remaining = { item_count ahead };

    fn next(&mut self) -> Option<Record>
        ensures took { WalkerTook self.old result self.new }
        ensures steps { YieldsFirst ahead self.old result self.new }
        ensures goes { MakesProgress (λ _. ⊤) (item_count ahead) self.old result self.new }
    {
        let Taken { found, after } = taken_at(self.list, self.place);
        self.place = after;
        found
    }
}

// Walks the whole list, and counts its actions.
pub fn count(list: &[u8]) -> usize
    ensures { result ≡ length (actions_of list.now) }
{
    start(list).count()
}
