// Chunks of the input: each a 4-byte big-endian count, and then that many bytes.
ghost use Rattle.std.specs.Prelude.{◌≡◌, ◌+◌, ◌≤◌, length, IfOk, IfSome};

use crate::window::{CutShort, Input, all_held};
use std::io::Read;

const COUNT: usize = 4;

// A chunk of so many bytes, of which the first, as many as were taken, stand at the start of the window.
#[derive(Clone, Copy, Debug, PartialEq, Eq, Drop)]
pub struct Chunk {
    pub len: usize,
    pub taken: usize,
}

impl<R: Read> Input<'_, R> {
    // The chunk at the start of the window, of which at most so many bytes are taken. There is none where the input ends before it.
    pub fn next_chunk(&mut self, most: usize) -> Result<Option<Chunk>, CutShort>
        requires { (4 ≤ length self.old.buffer.now) × (most ≤ length self.old.buffer.now) }
        ensures same_room { length self.new.buffer.now ≡ length self.old.buffer.now }
        ensures held { IfOk result (λ came. IfSome came (λ c. self.new.window.from + c.taken ≤ self.new.window.to)) }
        ensures part { IfOk result (λ came. IfSome came (λ c. c.taken ≤ c.len)) }
    {
        // held once: where the input ended, nothing is read after its end
        let held = self.hold(COUNT);
        if held == 0 {
            return Ok(None);
        }
        all_held(held, COUNT)?;
        let len = lists::bytes::get_u32(self.buffer, self.window.from) as usize;
        self.window.from += COUNT;
        let taken = len.min(most);
        self.hold_all(taken)?;
        Ok(Some(Chunk { len, taken }))
    }
}
