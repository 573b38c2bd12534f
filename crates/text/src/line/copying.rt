// The length of a line, and its text copied into a buffer.

ghost use Rattle.std.specs.Prelude.{◌≡◌, length};
ghost use Rattle.text.specs.Lines.{text_of};
ghost use Rattle.text.specs.Laid.{laid_end, laid};

use super::Line;

impl Line {
    #[tactic(auto, unfolding(crate::specs::Lines::text_of))]
    pub fn len(&self) -> usize
        ensures { result ≡ length (text_of self.now) }
    {
        self.bytes.as_slice().len()
    }

    // Copies the text to `buffer[at..]` and says where it ends there. Where it does not fit,
    // the answer is `None` and the buffer stays as it is.
    pub fn copy_to(&self, buffer: &mut [u8], at: usize) -> Option<usize>
        ensures value { result ≡ laid_end (text_of self.now) at buffer.old }
        ensures after { buffer.new ≡ laid (text_of self.now) at buffer.old }
    {
        let text = self.bytes.as_slice();
        if at <= buffer.len() && text.len() <= buffer.len() - at {
            let end = at + text.len();
            buffer[at..end].copy_from_slice(text);
            Some(end)
        } else {
            None
        }
    }
}
