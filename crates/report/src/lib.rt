// What people read, as bytes in a lent buffer. Bytes that do not fit are not written; each answer is the length of the whole text.
#![tactic(auto)]

mod actions;
mod bytes;
mod decimal;
mod events;
mod form;
mod step;
mod text;

ghost use Rattle.std.specs.Prelude.{◌≡◌, ◌≤◌};
ghost use Rattle.report.specs.Text.{Printed};
ghost use Rattle.report.specs.Hex.{trace_text, trace_text_length};
ghost use Rattle.report.specs.Events.{numbered, account_said, most_account_text};
ghost use Rattle.report.specs.Actions.{show_said, most_show_text};

use crate::actions::put_show;
use crate::bytes::put_trace;
use crate::events::put_account;
use crate::text::Text;
use demands::Counts;
use figure::Refused;
use lists::reader::MOST_ACTIONS;

// A buffer of so many bytes holds every text of an account: the counts, and a line for each event.
pub const MOST_ACCOUNT_TEXT: usize = 116 + 37 * MOST_ACTIONS;

pub const TRACE_TEXT: usize = 23;

// The head, a line for each action, and the account.
pub const MOST_SHOW_TEXT: usize = 747 + 52 * MOST_ACTIONS + MOST_ACCOUNT_TEXT;

// What is handed on of a run's answer: its counts, or the number of its refusal.
pub fn numbered(said: Result<Counts, Refused>) -> Result<Counts, u8>
    ensures { result ≡ numbered said }
{
    said.map_err(Refused::number)
}

// What program `account` prints of a run: its counts and its account, or the number of its refusal, whatever number that is.
// Kept: a refusal by its number, since what may not change needs it: account_text and show_text print any number, and a Refused would ask more of callers (README names report, so it isn't inner).
pub fn account_text(said: Result<Counts, u8>, account: &[u8], out: &mut [u8]) -> usize
    ensures printed { Printed (account_said said account.now) out.old 0 result out.new }
    ensures upper_bound { result ≤ most_account_text }
{
    let mut text = Text::new(out);
    put_account(&mut text, said, account);
    text.length()
}

// The line of a trace's hash.
pub fn trace_text(hash: u64, out: &mut [u8]) -> usize
    ensures printed { Printed (trace_text hash) out.old 0 result out.new }
    ensures upper_bound { result ≤ trace_text_length }
{
    let mut text = Text::new(out);
    put_trace(&mut text, hash);
    text.length()
}

// What program `show` prints of a run: the list's head, its actions with what came of each, and the account.
// Kept: a refusal by its number, as in account_text.
pub fn show_text(
    list: &[u8],
    said: Result<Counts, u8>,
    trace: &[u8],
    account: &[u8],
    out: &mut [u8],
) -> usize
    ensures printed { Printed (show_said list.now said trace.now account.now) out.old 0 result out.new }
    ensures upper_bound { result ≤ most_show_text }
{
    let mut text = Text::new(out);
    put_show(&mut text, list, said, trace, account);
    text.length()
}
