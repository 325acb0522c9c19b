//! A line is built from its front on.
ghost use Rattle.std.specs.Prelude.{◌≡◌, ◌+◌, ◌≤◌, [], ◌∷◌, ◌++◌, length, decimal};
ghost use Rattle.buffers.specs.Fronts.{Written};
ghost use Rattle.numerals.specs.Lines.{text_of, HasRoom};

use crate::line::Line;
use buffers::{BufferFault, write_front};
use fronts::Front;
use itoa::Buffer;

impl Line {
    /// A line with nothing on it.
    pub fn new() -> Line
        ensures { text_of result ≡ [] }
    {
        Line {
            text: Front::empty(b' '),
        }
    }

    /// The text of the line.
    pub fn as_slice(&self) -> &[u8]
        ensures { result.now ≡ text_of self.now }
    {
        self.text.as_slice()
    }

    /// Writes the text into the front of a buffer, and answers how many bytes it has.
    pub fn write_into(&self, buffer: &mut [u8]) -> Result<usize, BufferFault>
        ensures { Written (text_of self.now) buffer.old buffer.new result }
    {
        write_front(buffer, self.as_slice())
    }

    /// Writes a word behind the text.
    pub fn word(&mut self, word: &[u8])
        requires { HasRoom self.old (length word.now) }
        ensures { text_of self.new ≡ text_of self.old ++ word.now }
    {
        self.text.append(word);
    }

    /// Writes the digits of a number behind the text.
    pub fn number(&mut self, n: u64)
        requires { HasRoom self.old 20 }
        ensures text { text_of self.new ≡ text_of self.old ++ decimal n }
        ensures len { length (text_of self.new) ≤ length (text_of self.old) + 20 }
    {
        self.word(Buffer::new().format(n).as_bytes());
    }

    /// Writes a label and a number behind the text.
    pub fn field(&mut self, label: &[u8], n: u64)
        requires { HasRoom self.old (length label.now + 20) }
        ensures text { text_of self.new ≡ text_of self.old ++ (label.now ++ decimal n) }
        ensures len { length (text_of self.new) ≤ length (text_of self.old) + (length label.now + 20) }
    {
        self.word(label);
        self.number(n);
    }

    /// Ends the line with a line feed.
    pub fn end(&mut self)
        requires { HasRoom self.old 1 }
        ensures { text_of self.new ≡ text_of self.old ++ (10 ∷ []) }
    {
        self.word(b"\n");
    }
}
