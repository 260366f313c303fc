// The memory values of a list.
ghost use Rattle.std.specs.Prelude.{◌≡◌, ◌+◌, ◌*◌, ◌≤◌, length};
ghost use Rattle.lists.specs.Bytes.{word_width};
ghost use Rattle.lists.specs.Codec.{things_at, word_codec};
ghost use Rattle.lists.specs.Read.{memory_table};

use crate::bytes::{WORD, get_u32};
use crate::reader::read;
use figure::ADDRESSES;

// As many numbers as there is room for, one after another from a place on.
fn read_words(s: &[u8], at: usize, words: &mut [u32])
    requires { at + word_width * length words.old ≤ length s.now }
    ensures { words.new ≡ things_at word_codec s.now at (length words.old) }
{
    for (k, word) in words.iter_mut().enumerate() {
        *word = get_u32(s, at + WORD * k);
    }
}

// The m values, and zeros past them; all zeros where the reader refuses.
pub fn memory_of(s: &[u8]) -> [u32; ADDRESSES]
    ensures { result ≡ memory_table s.now }
{
    let mut table = [0; ADDRESSES];
    let Ok(l) = read(s) else {
        return table;
    };
    read_words(s, l.memory_at, &mut table[..usize::from(l.sizes.addresses)]);
    table
}
