// The counts of a run and its account, a line for each event.
#![tactic(auto, using(crate::proofs::Cursor::appending), unfolding(crate::specs::Events::mark_field, crate::specs::Events::kind_field, crate::specs::Events::event_fields, crate::specs::Events::account_line, crate::specs::Events::counts_line, crate::specs::Events::refused_line, crate::specs::Events::account_text, crate::specs::Events::account_said))]

ghost use Rattle.std.specs.Prelude.{◌≡◌, ◌<◌, ◌≤◌, length};
ghost use Rattle.figure.specs.Refusals.{most_actions};
ghost use Rattle.demands.specs.Run.{answered_by};
ghost use Rattle.report.specs.Text.{series};
ghost use Rattle.report.specs.Cursor.{appended};
ghost use Rattle.report.specs.Events.{mark_field, kind_field, event_fields, account_line, counts_line, refused_line, account_text, account_said, most_account_text};

use crate::text::Text;
use demands::Counts;
use figure::{Kind, Record, WriteNumber};
use lists::line::{LINE, NO_NUMBER, line_at};
use lists::reader::MOST_ACTIONS;

fn put_mark(to: &mut Text, mark: WriteNumber)
    ensures { to.new ≡ appended (mark_field mark.0) to.old }
{
    if mark.0 == NO_NUMBER {
        to.text(b" -");
    } else {
        to.field(u64::from(mark.0));
    }
}

// Of any record: an account may be any bytes, and `kind_field` prints W for each kind but a read's, also for what is no kind.
fn put_kind(to: &mut Text, e: Record)
    ensures { to.new ≡ appended (kind_field e.kind) to.old }
{
    if e.is(Kind::Read) {
        to.text(b" R");
    } else {
        to.text(b" W");
    }
}

fn put_event(to: &mut Text, e: Record)
    ensures { to.new ≡ appended (event_fields e) to.old }
{
    put_kind(to, e);
    to.field(u64::from(e.engine.0));
    to.field(u64::from(e.address.0));
    to.field(u64::from(e.data));
    to.byte(b'\n');
}

fn put_account_line(to: &mut Text, account: &[u8], k: usize)
    requires { k < most_actions }
    ensures { to.new ≡ appended (account_line account.now k) to.old }
{
    let l = line_at(account, LINE * k);
    to.decimal(k as u64 + 1);
    put_mark(to, l.number);
    put_event(to, l.event);
}

// Kept: a count and no chunks of the account, since a line past its end reads as zeros (`account_text` promises so many lines of any bytes).
fn put_lines(to: &mut Text, account: &[u8], n: usize)
    requires { n ≤ most_actions }
    ensures { to.new ≡ appended (series (account_line account.now) n) to.old }
{
    for k in 0..n {
        put_account_line(to, account, k);
    }
}

fn put_counts(to: &mut Text, c: Counts)
    ensures { to.new ≡ appended (counts_line (answered_by (Ok c))) to.old }
{
    to.labelled(b"accepted ", c.accepted as u64);
    to.labelled(b" refused ", c.refused as u64);
    to.labelled(b" events ", c.events as u64);
    to.labelled(b" settled ", c.settled as u64);
    to.byte(b'\n');
}

pub(crate) fn put_refused(to: &mut Text, number: u8)
    ensures text { to.new ≡ appended (refused_line number) to.old }
    ensures short { length (refused_line number) ≤ 12 }
{
    to.labelled(b"refused ", u64::from(number));
    to.byte(b'\n');
}

pub(crate) fn put_taken(to: &mut Text, c: Counts, account: &[u8])
    ensures text { to.new ≡ appended (account_text (answered_by (Ok c)) account.now) to.old }
    ensures short { length (account_text (answered_by (Ok c)) account.now) ≤ most_account_text }
{
    put_counts(to, c);
    put_lines(to, account, c.events.min(MOST_ACTIONS));
}

// Kept: a refusal by its number, which `account_text` hands on.
pub(crate) fn put_account(to: &mut Text, said: Result<Counts, u8>, account: &[u8])
    ensures text { to.new ≡ appended (account_said said account.now) to.old }
    ensures short { length (account_said said account.now) ≤ most_account_text }
{
    match said {
        Ok(c) => put_taken(to, c, account),
        Err(number) => put_refused(to, number),
    }
}
