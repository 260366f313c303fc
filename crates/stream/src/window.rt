// The input, read in pieces as large as a lent buffer has room for.
ghost use Rattle.std.specs.Prelude.{◌≡◌, ◌+◌, ◌-◌, ◌≤◌, length, slice_range, IfOk, Some, codes};
ghost use Rattle.io.specs.Counts.{IsPrefixLen};

use std::error::Error;
use std::fmt;
use std::io::Read;

// Where bytes stand in a buffer: from one place up to another.
#[derive(Clone, Copy, Debug, PartialEq, Eq)]
pub struct Window {
    pub from: usize,
    pub to: usize,
}

// The input, and what is held of it: the bytes of the buffer at the window.
// Kept: a lent buffer and a window of it, since there is no heap for a BufReader.
// Kept: that the buffer keeps its length stands in each contract: a ghost field states a fact and holds no number, and a `[u8; N]` in place of the slice would ask more of callers (README names this crate, so it isn't inner).
#[derive(Drop)]
pub struct Input<'a, R> {
    reader: &'a mut R,
    pub buffer: &'a mut [u8],
    pub window: Window,
    pub ghost order: { window.from ≤ window.to },
    pub ghost inside: { window.to ≤ length buffer.now },
}

// The input ended inside what was asked for: so many bytes more it did not have.
#[derive(Clone, Copy, Debug, PartialEq, Eq, Drop)]
pub struct CutShort {
    pub missing: usize,
}

impl fmt::Display for CutShort {
    ghost output = { λ _. Some (codes "cut short") };

    fn fmt<W: fmt::Write>(&self, f: &mut fmt::Formatter<W>) -> fmt::Result {
        write!(f, "cut short")
    }
}

impl Error for CutShort {}

// One read into the buffer's start; how many bytes came. A read that fails counts as the input's end.
fn read_some<R: Read>(reader: &mut R, buffer: &mut [u8]) -> usize
    ensures { IsPrefixLen result buffer.new }
{
    reader.read(buffer).unwrap_or(0)
}

// Reads until the buffer is full or the input ends; how many bytes stand at the buffer's start.
pub fn read_full<R: Read>(reader: &mut R, buffer: &mut [u8]) -> usize
    ensures { IsPrefixLen result buffer.new }
{
    let room = buffer.len();
    Input::new(reader, buffer).hold(room)
}

// So many bytes are held of those asked for: all of them, or the input ended before.
pub(crate) fn all_held(held: usize, count: usize) -> Result<(), CutShort>
    ensures { IfOk result (λ _. count ≤ held) }
{
    if held < count {
        return Err(CutShort {
            missing: count - held,
        });
    }
    Ok(())
}

impl<'a, R: Read> Input<'a, R> {
    // Nothing is held yet.
    pub fn new(reader: &'a mut R, buffer: &'a mut [u8]) -> Input<'a, R>
        ensures same_room { length result.buffer.now ≡ length buffer.old }
        ensures empty { result.window.to ≡ result.window.from }
    {
        Input {
            reader,
            buffer,
            window: Window { from: 0, to: 0 },
        }
    }

    // The bytes that are held.
    pub fn held(&self) -> &[u8]
        ensures { result.now ≡ slice_range self.now.buffer.now self.now.window.from self.now.window.to }
    {
        &self.buffer[self.window.from..self.window.to]
    }

    // Moves the bytes that are held to the buffer's start.
    fn slide(&mut self)
        ensures same_room { length self.new.buffer.now ≡ length self.old.buffer.now }
        ensures at_start { self.new.window.from ≡ 0 }
        ensures all { self.new.window.to ≡ self.old.window.to - self.old.window.from }
    {
        let Window { from, to } = self.window;
        self.buffer.copy_within(from..to, 0);
        self.window = Window {
            from: 0,
            to: to - from,
        };
    }

    // Reads until what is held ends at that place of the buffer, or the input ends.
    fn read_to(&mut self, end: usize)
        requires { end ≤ length self.old.buffer.now }
        ensures same_room { length self.new.buffer.now ≡ length self.old.buffer.now }
        ensures same_start { self.new.window.from ≡ self.old.window.from }
    {
        // Kept: each turn adds what one read brought, so there is no count that a range or an iterator could take over.
        while self.window.to < end {
            let n = read_some(self.reader, &mut self.buffer[self.window.to..]);
            if n == 0 {
                break;
            }
            self.window.to += n;
        }
    }

    // Holds as many bytes as needed, or all that are left where the input ends; how many are held.
    pub fn hold(&mut self, need: usize) -> usize
        requires { need ≤ length self.old.buffer.now }
        ensures same_room { length self.new.buffer.now ≡ length self.old.buffer.now }
        ensures held { result ≡ self.new.window.to - self.new.window.from }
    {
        if self.window.to - self.window.from < need {
            self.slide();
            self.read_to(need);
        }
        self.window.to - self.window.from
    }

    // Holds so many bytes.
    pub(crate) fn hold_all(&mut self, count: usize) -> Result<(), CutShort>
        requires { count ≤ length self.old.buffer.now }
        ensures same_room { length self.new.buffer.now ≡ length self.old.buffer.now }
        ensures held { IfOk result (λ _. self.new.window.from + count ≤ self.new.window.to) }
    {
        let held = self.hold(count);
        all_held(held, count)
    }

    // Drops so many bytes, which need not fit into the buffer.
    pub fn drop_bytes(&mut self, count: usize) -> Result<(), CutShort>
        requires { 1 ≤ length self.old.buffer.now }
        ensures { length self.new.buffer.now ≡ length self.old.buffer.now }
    {
        let mut missing = count;
        // Kept: each turn takes away what is held, so there is no count that a range or an iterator could take over.
        while missing > 0 {
            let n = self.hold(1).min(missing);
            if n == 0 {
                return Err(CutShort { missing });
            }
            self.window.from += n;
            missing -= n;
        }
        Ok(())
    }
}
