//! What a refused call tells its caller, whichever layer refused: a number, a detail, and a word for people.
#![tactic(auto)]

ghost use Rattle.std.specs.Prelude.{◌≡◌};
ghost use Rattle.refusal.specs.Told.{Told};

/// All that a refusal tells.
#[derive(Clone, Copy, PartialEq, Eq, Debug)]
pub struct Message {
    /// The refusal's number, by which programs know it.
    pub number: u8,
    /// The place, task or way that the refusal is about, or 0 where it is about none.
    pub detail: usize,
    /// The refusal's word, by which people know it.
    pub word: &'static str,
}

impl Message {
    /// A message of these three.
    pub fn new(number: u8, detail: usize, word: &'static str) -> Message
        ensures number { result.number ≡ number }
        ensures detail { result.detail ≡ detail }
        ensures word { result.word.now ≡ word.now }
    {
        Message {
            number,
            detail,
            word,
        }
    }
}

/// A refusal, told by number, detail and word.
// The numbers are no discriminants of the enums: a number belongs beside its detail and word, and cases that hold values cannot be cast.
pub trait Refusal {
    ghost told: { Self → Told };

    /// All that the refusal tells, in one answer.
    fn message(&self) -> Message
        ensures number { result.number ≡ (told self.now).number }
        ensures detail { result.detail ≡ (told self.now).detail }
        ensures word { result.word.now ≡ (told self.now).word };

    /// The refusal's number, by which programs know it.
    final fn number(&self) -> u8
        ensures { result ≡ (told self.now).number }
    {
        self.message().number
    }

    /// The place, task or way that the refusal is about, or 0 where it is about none.
    final fn detail(&self) -> usize
        ensures { result ≡ (told self.now).detail }
    {
        self.message().detail
    }

    /// The refusal's word, by which people know it.
    final fn word(&self) -> &'static str
        ensures { result.now ≡ (told self.now).word }
    {
        self.message().word
    }
}
