// A new line, and the pieces that can be put at its end: bytes and whole numbers.

ghost use Rattle.std.specs.Prelude.{◌≡◌, [], ◌∷◌, ◌++◌, decimal};
ghost use Rattle.std.specs.Fmt.{signed_decimal};
ghost use Rattle.text.specs.Lines.{text_of, kept};

use super::Line;
use given::Given;

impl Line {
    #[tactic(auto, unfolding(crate::specs::Lines::text_of))]
    pub fn new() -> Line
        ensures { text_of result ≡ [] }
    {
        Line {
            bytes: Given::new(0),
        }
    }

    #[tactic(auto, unfolding(crate::specs::Lines::text_of, crate::specs::Lines::kept))]
    pub fn put(&mut self, byte: u8)
        ensures { text_of self.new ≡ kept (text_of self.old ++ byte ∷ []) }
    {
        self.bytes.push(byte);
    }

    #[tactic(auto, unfolding(crate::specs::Lines::text_of, crate::specs::Lines::kept))]
    pub fn put_text(&mut self, text: &[u8])
        ensures { text_of self.new ≡ kept (text_of self.old ++ text.now) }
    {
        self.bytes.append(text);
    }

    // In decimal, with no leading zero. The digits are made here: a line that is full drops what comes, and so is no writer
    // that a format could write to.
    pub fn put_unsigned(&mut self, value: u64)
        ensures { text_of self.new ≡ kept (text_of self.old ++ decimal value) }
    {
        if value < 10 {
            self.put(b'0' + value as u8);
        } else {
            self.put_unsigned(value / 10);
            self.put(b'0' + (value % 10) as u8);
        }
    }

    // In decimal, after `-` where the value is below 0.
    pub fn put_signed(&mut self, value: i64)
        ensures { text_of self.new ≡ kept (text_of self.old ++ signed_decimal value) }
    {
        if value < 0 {
            self.put(b'-');
            self.put_unsigned(value.unsigned_abs());
        } else {
            self.put_unsigned(value.unsigned_abs());
        }
    }
}
