//! A draft with the text that names its tasks.
ghost use Rattle.std.specs.Prelude.{◌≡◌, ℕ, ◌<◌, ◌≤◌, length, Ok, Err, IfOk, MatchResult};
ghost use Rattle.tabletext.specs.Read.{read_text};
ghost use Rattle.report.specs.Names.{AreShort};

use tabletext::fault::TextFault;
use tabletext::text::read;
use taskset::draft::Draft;

/// What was read from a text, and the text itself, in which no name is longer than sixteen bytes.
// Its own type: that the names are short is what a page's room rests on. A draft that is being made can't keep that, and one that is only
// lent doesn't need it.
#[derive(Clone, Copy)]
pub struct NamedDraft<'t> {
    pub draft: Draft,
    pub text: &'t [u8],
    ghost short: { AreShort text.now draft.tasks },
}

/// Reads a text.
pub fn read_named(text: &[u8]) -> Result<NamedDraft<'_>, TextFault>
    ensures same_text { IfOk result (λ named. named.text.now ≡ text.now) }
    ensures answer { MatchResult result
        (λ named. read_text text.now ≡ Ok named.draft)
        (λ fault. read_text text.now ≡ Err fault) }
{
    let mut draft = Draft::empty();
    read(text, &mut draft)?;
    Ok(NamedDraft { draft, text })
}
