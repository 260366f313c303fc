// Hands a run and the writer buffers that are too short by one byte, exactly long enough, and longer, and prints what each answers and whether the rest is untouched.
#![tactic(auto)]

mod lent;
mod rows;
mod runs;
mod writes;

ghost use Rattle.std.specs.Prelude.{◌≤◌, length};
ghost use Rattle.stream.specs.Room.{most_held};

use std::io::{Read, Write};
use stream::room::MOST_HELD;
use stream::window::{CutShort, Input};

fn tell_list<W: Write>(writer: &mut W, list: &[u8]) {
    let _ = writeln!(writer, "list {}", list.len());
    runs::tell(writer, list);
    writes::tell(writer, list);
}

// A chunk that is longer than what a run is handed ends the input, as one that is cut short does.
// Kept: a count that no input uses up, since a proved loop has to end and no function may gain a Wait bound.
// Kept: a loop here and in `replay`: the bodies differ in all but the call for the next chunk, and a closure that does their work would have to promise that the window keeps its room.
fn tell_chunks<R: Read, W: Write>(input: &mut Input<R>, writer: &mut W) -> Result<(), CutShort>
    requires { most_held ≤ length input.old.buffer.now }
{
    for _ in 0..u64::MAX {
        let Some(chunk) = input.next_chunk(MOST_HELD)? else {
            break;
        };
        let missing = chunk.len - chunk.taken;
        if missing > 0 {
            return Err(CutShort { missing });
        }
        tell_list(writer, &input.held()[..chunk.taken]);
        input.drop_bytes(chunk.len)?;
    }
    Ok(())
}

fn main(rt: HostRuntime) {
    let mut reader = rt.stdin();
    let mut writer = rt.stdout();
    rows::tell_all(&mut writer);
    let mut buffer = [0u8; MOST_HELD];
    let mut input = Input::new(&mut reader, &mut buffer);
    if let Err(e) = tell_chunks(&mut input, &mut writer) {
        let _ = writeln!(writer, "{e}");
    }
}
