// Numbers in decimal digits.
#![tactic(auto, using(crate::proofs::Cursor::appending), unfolding(crate::specs::Decimal::field, crate::specs::Decimal::labelled))]

ghost use Rattle.std.specs.Prelude.{◌≡◌};
ghost use Rattle.report.specs.Cursor.{appended};
ghost use Rattle.report.specs.Decimal.{decimal, field, labelled};

use crate::text::Text;
use itoa::Buffer;

impl Text<'_> {
    // Most numbers have one digit.
    // Kept: a count comes here `as u64`. A usize has no From to it, and a TryFrom, whose Err never comes, is no plainer.
    #[tactic(auto, using(crate::proofs::Cursor::appending, crate::proofs::Digits::decimal_low, crate::proofs::Digits::same_decimal))]
    #[inline(always)]
    pub(crate) fn decimal(&mut self, n: u64)
        ensures { self.new ≡ appended (decimal n) self.old }
    {
        if n < 10 {
            self.byte(b'0' + n as u8);
            return;
        }
        let mut digits = Buffer::new();
        self.text(digits.format(n).as_bytes());
    }

    // A space and a number.
    #[inline(always)]
    pub(crate) fn field(&mut self, n: u64)
        ensures { self.new ≡ appended (field n) self.old }
    {
        self.byte(b' ');
        self.decimal(n);
    }

    #[inline(always)]
    pub(crate) fn labelled(&mut self, label: &[u8], n: u64)
        ensures { self.new ≡ appended (labelled label.now n) self.old }
    {
        self.text(label);
        self.decimal(n);
    }
}
