// Standard input is chunks. For each, prints what `account` prints of it and the hash of its trace.
#![tactic(auto)]

mod printer;

ghost use Rattle.std.specs.Prelude.{◌≡◌, ◌+◌, ◌≤◌, length};
ghost use Rattle.stream.specs.Room.{most_held};

use printer::Printer;
use std::io::{Read, Write};
use stream::chunk::Chunk;
use stream::room::{MOST_ACCOUNT, MOST_HELD, MOST_TRACE};
use stream::window::{CutShort, Input};

// Runs what is held of a chunk. Its text counts once the rest of the chunk is seen.
fn replay_chunk<R: Read, W: Write>(
    input: &mut Input<R>,
    printer: &mut Printer<W>,
    chunk: Chunk,
) -> Result<(), CutShort>
    requires room { 1 ≤ length input.old.buffer.now }
    requires held { input.old.window.from + chunk.taken ≤ input.old.window.to }
    ensures { length input.new.buffer.now ≡ length input.old.buffer.now }
{
    let n = printer.put(&input.held()[..chunk.taken]);
    input.drop_bytes(chunk.len)?;
    printer.keep(n);
    Ok(())
}

// Kept: a count that no input uses up, since a proved loop has to end and no function may gain a Wait bound.
// Kept: a loop here and in `buffers`: the bodies differ in all but the call for the next chunk, and a closure that does their work would have to promise that the window keeps its room.
fn replay<R: Read, W: Write>(input: &mut Input<R>, printer: &mut Printer<W>) -> Result<(), CutShort>
    requires { most_held ≤ length input.old.buffer.now }
{
    for _ in 0..u64::MAX {
        let Some(chunk) = input.next_chunk(MOST_HELD)? else {
            break;
        };
        replay_chunk(input, printer, chunk)?;
    }
    Ok(())
}

fn main(rt: HostRuntime) {
    let mut reader = rt.stdin();
    let mut buffer = [0u8; 131072];
    let mut input = Input::new(&mut reader, &mut buffer);
    let mut printer = Printer {
        writer: &mut rt.stdout(),
        trace: &mut [0u8; MOST_TRACE],
        account: &mut [0u8; MOST_ACCOUNT],
        text: &mut [0u8; 262144],
        waiting: 0,
    };
    let ended = replay(&mut input, &mut printer);
    printer.flush();
    if let Err(e) = ended {
        let _ = writeln!(printer.writer, "{e}");
    }
}
