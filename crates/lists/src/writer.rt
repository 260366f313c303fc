// The writer: a list's bytes from its sizes, its memory table and its actions' bytes.
ghost use Rattle.std.specs.Prelude.{◌≡◌, ◌+◌, ◌*◌, ◌≤◌, length};
ghost use Rattle.figure.specs.Refusals.{first_of};
ghost use Rattle.figure.specs.Refused.{number_in};
ghost use Rattle.lists.specs.Bytes.{word_width, u32_bytes, rows, put};
ghost use Rattle.lists.specs.Read.{header_bytes};
ghost use Rattle.lists.specs.Write.{write_refused, written, Wrote};

use crate::bytes::{RECORD, WORD, put, put_u32};
use crate::reader::{HEADER, MOST_ACTIONS, VERSION};
use figure::{Refused, Sizes, judge_sizes};

// The first refusal that applies.
fn judge(sizes: Sizes, memory: &[u32], actions: &[u8], room: usize) -> Result<(), Refused>
    ensures { number_in result ≡ first_of (write_refused sizes memory.now actions.now room) }
{
    judge_sizes(sizes)?;
    if memory.len() != usize::from(sizes.addresses) {
        return Err(Refused::TableLength);
    }
    if actions.len() % RECORD != 0 {
        return Err(Refused::ActionCut);
    }
    if actions.len() / RECORD > MOST_ACTIONS {
        return Err(Refused::TooManyActions);
    }
    if room < HEADER + WORD * memory.len() + actions.len() {
        return Err(Refused::OutputShort);
    }
    Ok(())
}

// The header, of a list that has so many bytes after the length field.
fn header_bytes(after: u32, sizes: Sizes) -> [u8; HEADER]
    ensures { result ≡ header_bytes after sizes }
{
    let [a, b, c, d] = after.to_be_bytes();
    let Sizes {
        engines,
        addresses,
        depth,
    } = sizes;
    [a, b, c, d, VERSION, engines, addresses, depth]
}

fn put_words(words: &[u32], out: &mut [u8], at: usize)
    requires { at + word_width * length words.now ≤ length out.old }
    ensures { out.new ≡ put out.old at (rows u32_bytes words.now) }
{
    for (k, word) in words.iter().enumerate() {
        put_u32(out, at + WORD * k, *word);
    }
}

// Answers the list's length. Everything that can refuse is known before the first byte is written.
pub fn write(sizes: Sizes, memory: &[u32], actions: &[u8], out: &mut [u8]) -> Result<usize, Refused>
    ensures { Wrote sizes memory.now actions.now out.old (written result) out.new }
{
    judge(sizes, memory, actions, out.len())?;
    let actions_at = HEADER + WORD * memory.len();
    let total = actions_at + actions.len();
    put(out, 0, &header_bytes((total - WORD) as u32, sizes));
    put_words(memory, out, HEADER);
    put(out, actions_at, actions);
    Ok(total)
}
