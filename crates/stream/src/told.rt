// What a line of output is made of.
ghost use Rattle.std.specs.Prelude.{◌≡◌, codes};
ghost use Rattle.figure.specs.Refusals.{pick};
ghost use Rattle.figure.specs.Refused.{number_in};

use figure::Refused;
use std::io::Write;

// What the writer does not take is let go.
pub fn text<W: Write>(writer: &mut W, words: &[u8]) {
    let _ = writer.write_all(words);
}

// The number of the refusal, 0 where nothing was refused.
// Kept: 0 and no Option, since what may not change needs it: the lines that `buffers` and `states` print have a number there.
pub fn number<T>(said: &Result<T, Refused>) -> u8
    ensures { result ≡ number_in said.now }
{
    match said {
        Ok(_) => 0,
        Err(refused) => refused.number(),
    }
}

// How a line says whether two values are the same.
pub fn whether_same(is_same: bool) -> &'static str
    ensures { result.now ≡ pick is_same (codes "same") (codes "DIFFERS") }
{
    if is_same { "same" } else { "DIFFERS" }
}
