// Bytes in lowercase hexadecimal digits.
#![tactic(auto, using(crate::proofs::Cursor::appending, crate::proofs::Hexed::byte_digits, crate::proofs::Hexed::hash_digits), unfolding(crate::specs::Hex::trace_text))]

ghost use Rattle.std.specs.Prelude.{◌≡◌};
ghost use Rattle.report.specs.Cursor.{appended};
ghost use Rattle.report.specs.Hex.{hex_byte, trace_text};

use crate::text::Text;
use hex::encode_to_slice;

impl Text<'_> {
    #[inline(always)]
    pub(crate) fn hex_byte(&mut self, b: u8)
        ensures { self.new ≡ appended (hex_byte b) self.old }
    {
        let mut digits = [0; 2];
        encode_to_slice([b], &mut digits).unwrap();
        self.text(&digits);
    }
}

pub(crate) fn put_trace(to: &mut Text, hash: u64)
    ensures { to.new ≡ appended (trace_text hash) to.old }
{
    let mut digits = [0; 16];
    encode_to_slice(hash.to_be_bytes(), &mut digits).unwrap();
    to.text(b"trace ");
    to.text(&digits);
    to.byte(b'\n');
}
