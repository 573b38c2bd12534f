// A fault as a line of text, such as `refused 19 R 0`: number, letter of the layer, place.

ghost use Rattle.std.specs.Prelude.{◌≡◌, Some};
ghost use Rattle.fault.specs.Refusal.{refusal_line, refusal_text, written_answer, written_bytes};
ghost use Rattle.text.specs.Lines.{text_of};

use super::{Cause, Fault};
use std::fmt;
use text::Line;

impl Fault {
    pub fn new(cause: Cause, place: usize) -> Fault
        ensures { result ≡ record { cause = cause; place = place } }
    {
        Fault { cause, place }
    }

    // Writes the line with its newline at the start of the buffer and says how long it is.
    // Where it does not fit, the buffer stays as it is.
    pub fn write_line(self, buffer: &mut [u8]) -> Result<usize, Fault>
        ensures value { result ≡ written_answer (refusal_line self) buffer.old }
        ensures after { buffer.new ≡ written_bytes (refusal_line self) buffer.old }
    {
        self.told()
            .copy_to(buffer, 0)
            .ok_or(Fault::new(Cause::ShortBuffer, 0))
    }

    // Piece by piece: a line that is full drops what comes, and so is no writer that the format below could write to.
    fn told(self) -> Line
        ensures { text_of result ≡ refusal_line self }
    {
        let mut line = Line::new();
        line.put_text(b"refused ");
        line.put_unsigned(self.cause.number() as u64);
        line.put(b' ');
        line.put(self.cause.layer().letter());
        line.put(b' ');
        line.put_unsigned(self.place as u64);
        line.put(b'\n');
        line
    }
}

// The line without its newline.
impl fmt::Display for Fault {
    ghost output = { λ f. Some (refusal_text f) };

    #[tactic(auto, unfolding(crate::specs::Refusal::refusal_text))]
    fn fmt<W: fmt::Write>(&self, f: &mut fmt::Formatter<W>) -> fmt::Result {
        let number = self.cause.number();
        let letter = self.cause.layer().letter() as char;
        let place = self.place;
        write!(f, "refused {number} {letter} {place}")
    }
}
