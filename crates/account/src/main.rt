// Reads a list from standard input and prints `refused N`, or the counts of its run and its account.
#![tactic(auto)]

use stream::room::{MOST_ACCOUNT, MOST_HELD, MOST_TRACE};
use stream::told;

// Kept: as `show` but for the text. One function for both would take it as a closure and its size as a parameter, and need a crate of its own, for eight lines.
fn main(rt: HostRuntime) {
    let mut list = [0u8; MOST_HELD];
    let got = stream::window::read_full(&mut rt.stdin(), &mut list);
    let mut trace = [0u8; MOST_TRACE];
    let mut account = [0u8; MOST_ACCOUNT];
    let said = report::numbered(history::run(&list[..got], &mut trace, &mut account));
    let mut text = [0u8; report::MOST_ACCOUNT_TEXT];
    let length = report::account_text(said, &account, &mut text);
    told::text(&mut rt.stdout(), &text[..length]);
}
