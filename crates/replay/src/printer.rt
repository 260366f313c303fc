// What waits to be printed, and what each run is lent.
ghost use Rattle.std.specs.Prelude.{◌+◌, ◌≤◌, length};
ghost use Rattle.replay.specs.Printed.{most_printed};

use std::io::Write;
use stream::front::front;
use stream::told;

const MOST_PRINTED: usize = report::MOST_ACCOUNT_TEXT + report::TRACE_TEXT;

// The first bytes of the text wait, and behind them there is room for what one chunk prints.
// Kept: what waits is the front of a lent buffer, since there is no heap for a Vec or a BufWriter.
#[derive(Drop)]
pub(crate) struct Printer<'a, W> {
    pub writer: &'a mut W,
    pub trace: &'a mut [u8],
    pub account: &'a mut [u8],
    pub text: &'a mut [u8],
    pub waiting: usize,
    pub ghost room: { waiting + most_printed ≤ length text.now },
}

impl<W: Write> Printer<'_, W> {
    // Runs the list, and puts what it prints behind what waits; how many bytes that is.
    pub(crate) fn put(&mut self, list: &[u8]) -> usize
        ensures { result ≤ most_printed }
    {
        let said = history::run(list, self.trace, self.account);
        let end = said.map_or(0, |_| stream::room::trace_bytes(list));
        let hash = stream::hash::hash(front(self.trace, end));
        let out = &mut self.text[self.waiting..];
        let n = report::account_text(report::numbered(said), self.account, out);
        n + report::trace_text(hash, &mut out[n..])
    }

    // So many of these bytes wait too. All are written where they leave too little room.
    pub(crate) fn keep(&mut self, n: usize)
        requires { n ≤ most_printed }
    {
        let waiting = self.waiting + n;
        if self.text.len() - waiting < MOST_PRINTED {
            told::text(self.writer, &self.text[..waiting]);
            self.waiting = 0;
        } else {
            self.waiting = waiting;
        }
    }

    // Writes what waits.
    pub(crate) fn flush(&mut self) {
        told::text(self.writer, &self.text[..self.waiting]);
        self.waiting = 0;
    }
}
