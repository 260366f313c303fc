// The events of a trace, one after another.
ghost use Rattle.std.specs.Prelude.{◌≡◌, ◌*◌, ◌^◌, ◌<◌, ◌≤◌, length};
ghost use Rattle.figure.specs.Refusals.{most_actions};
ghost use Rattle.lists.specs.Record.{record_width};
ghost use Rattle.shape.specs.Turns.{action_at};
ghost use Rattle.history.specs.Pieces.{count_of};

use figure::Record;
use lists::bytes::RECORD;

// A record each, no more of them than a list may have actions.
#[derive(Clone, Copy)]
pub struct Events<'a> {
    pub bytes: &'a [u8],
    ghost few: { length bytes.now ≤ record_width * most_actions },
}

impl<'a> Events<'a> {
    pub fn count(&self) -> usize
        ensures { result ≡ count_of self.now.bytes.now }
    {
        self.bytes.len() / RECORD
    }

    pub fn at(&self, k: usize) -> Record
        requires { record_width * k < 2 ^ 64 }
        ensures { result ≡ action_at self.now.bytes.now k }
    {
        lists::bytes::record_at(self.bytes, RECORD * k)
    }
}
