//! Bytes, numbers and lines written one after another into a lent buffer.
ghost use Rattle.std.specs.Prelude.{◌≡◌, ◌+◌, ◌≤◌, length};

use itoa::{Buffer, Integer};

/// A lent buffer, the first `len` bytes of which are written.
// Tried with a model: that hides which buffer it is, and what the lent buffer holds once the page is gone stayed unproved.
#[derive(Drop)]
pub struct Page<'a> {
    buffer: &'a mut [u8],
    len: usize,
    ghost within: { len ≤ length buffer.now },
}

impl<'a> Page<'a> {
    ghost use Rattle.report.specs.Page.{line};
    ghost use Rattle.report.specs.Pages.{HasRoom, IsOver, Writes};

    /// Nothing written yet.
    pub fn over(buffer: &'a mut [u8]) -> Page<'a>
        ensures { IsOver buffer.entry result }
    {
        Page { buffer, len: 0 }
    }

    /// How many bytes are written.
    pub fn len(&self) -> usize
        ensures { result ≡ self.now.len }
    {
        self.len
    }

    fn put(&mut self, bytes: &[u8])
        requires { HasRoom self.old (length bytes.now) }
        ensures { Writes self.old bytes.now self.new }
    {
        let end = self.len + bytes.len();
        self.buffer[self.len..end].copy_from_slice(bytes);
        self.len = end;
    }

    fn put_number<N: Integer>(&mut self, n: N)
        requires { HasRoom self.old (length (N.text n)) }
        ensures { Writes self.old (N.text n) self.new }
    {
        self.put(Buffer::new().format(n).as_bytes());
    }

    /// A line of a word and two numbers, each apart by a space.
    pub fn put_row<M: Integer, N: Integer>(&mut self, word: &[u8], first: M, second: N)
        requires { let digits = length (M.text first) + length (N.text second) in
            HasRoom self.old (length word.now + digits + 3) }
        ensures { Writes self.old (line word.now (M.text first) (N.text second)) self.new }
    {
        self.put(word);
        self.put(b" ");
        self.put_number(first);
        self.put(b" ");
        self.put_number(second);
        self.put(b"\n");
    }
}
