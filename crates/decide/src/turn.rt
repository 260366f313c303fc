// The turn of a well-formed action, kind by kind: its refusals in their order, and else its move.
ghost use Rattle.std.specs.Prelude.{◌≡◌, true, false};
ghost use Rattle.figure.specs.Figure.{R, W, MW, MR, CU, CI};
ghost use Rattle.decide.specs.Turned.{turn_by};
ghost use Rattle.decide.specs.Move.{step_of, turned};

use crate::{Look, Move, Word, entry_of, fill, place_of};
use figure::{Engine, Kind, Record, Refused, Sizes};
use shape::InEntry;

#[derive(Clone, Copy)]
pub(crate) struct Turn {
    pub sizes: Sizes,
    pub action: Record,
    pub look: Look,
}

// An accepted turn, before it says which queues change.
fn accept(event: Record, entry: InEntry, word: Word) -> Move
    ensures { result ≡ record { event = event; out_left = false; in_left = false; out_joins = false; from = 0; to = 0; entry = entry; word = word } }
{
    Move {
        event,
        out_left: false,
        in_left: false,
        out_joins: false,
        from: 0,
        to: 0,
        entry,
        word,
    }
}

impl Turn {
    // The kind is the action's.
    // Kept: a closure for each kind would be no plainer, since the six are called here alone, each by its name.
    pub(crate) fn decided(self, kind: Kind) -> Result<Move, Refused>
        ensures { turn_by result ≡ turned self.sizes self.action self.look (step_of kind self.action) }
    {
        match kind {
            Kind::Read => self.read(),
            Kind::Write => self.write(),
            Kind::Publish => self.publish(),
            Kind::Refresh => self.refresh(),
            Kind::Update => self.update(),
            Kind::Forget => self.forget(),
        }
    }

    fn read(self) -> Result<Move, Refused>
        ensures { let x = self.action in turn_by result ≡ turned self.sizes x self.look (R x.engine.0 x.address.0) }
    {
        if self.look.outs != 0 {
            return Err(Refused::OutWaiting);
        }
        if self.look.own {
            return Err(Refused::OwnWaiting);
        }
        let word = self.look.cached.ok_or(Refused::NotCached)?;
        let entry = entry_of(Engine(0), self.action.address, word);
        Ok(accept(fill(self.action, entry), entry, Word::Kept))
    }

    fn write(self) -> Result<Move, Refused>
        ensures { let x = self.action in turn_by result ≡ turned self.sizes x self.look (W x.engine.0 x.address.0 x.«data») }
    {
        if self.sizes.depth <= self.look.outs {
            return Err(Refused::OutFull);
        }
        let x = self.action;
        let entry = entry_of(x.engine, x.address, x.data);
        Ok(Move {
            out_joins: true,
            ..accept(x, entry, Word::Kept)
        })
    }

    fn publish(self) -> Result<Move, Refused>
        ensures { let x = self.action in turn_by result ≡ turned self.sizes x self.look (MW x.engine.0) }
    {
        if self.look.outs == 0 {
            return Err(Refused::OutEmpty);
        }
        if self.look.blocked {
            return Err(Refused::SomeInFull);
        }
        let first = self.look.first_out;
        let event = fill(self.action, entry_of(Engine(0), first.address, first.data));
        let entry = entry_of(self.action.engine, first.address, first.data);
        Ok(Move {
            out_left: true,
            to: usize::from(self.sizes.engines),
            ..accept(event, entry, Word::Stored)
        })
    }

    fn refresh(self) -> Result<Move, Refused>
        ensures { let x = self.action in turn_by result ≡ turned self.sizes x self.look (MR x.engine.0 x.address.0) }
    {
        if self.sizes.depth <= self.look.ins {
            return Err(Refused::InFull);
        }
        let entry = entry_of(Engine(0), self.action.address, self.look.stored);
        let k = place_of(self.action.engine);
        Ok(Move {
            from: k,
            to: k + 1,
            ..accept(fill(self.action, entry), entry, Word::Kept)
        })
    }

    fn update(self) -> Result<Move, Refused>
        ensures { let x = self.action in turn_by result ≡ turned self.sizes x self.look (CU x.engine.0) }
    {
        if self.look.ins == 0 {
            return Err(Refused::InEmpty);
        }
        let entry = self.look.first_in;
        Ok(Move {
            in_left: true,
            ..accept(fill(self.action, entry), entry, Word::Cached)
        })
    }

    fn forget(self) -> Result<Move, Refused>
        ensures { let x = self.action in turn_by result ≡ turned self.sizes x self.look (CI x.engine.0 x.address.0) }
    {
        let entry = entry_of(Engine(0), self.action.address, 0);
        Ok(accept(self.action, entry, Word::Dropped))
    }
}
