//! A whole text.
ghost use Rattle.std.specs.Prelude.{◌≡◌};
ghost use Rattle.refusal.specs.Outcome.{after, answered};
ghost use Rattle.taskset.specs.Table.{nothing};
ghost use Rattle.textparts.specs.View.{line_of, left};
ghost use Rattle.tabletext.specs.Laws.{ReadLaws};
ghost use Rattle.tabletext.specs.Lines.{outcome, rest_read};
ghost use Rattle.tabletext.specs.Read.{placed, read_text};

use crate::fault::{FaultAt, TextFault};
use crate::line::Building;
use taskset::draft::Draft;
use textparts::reader::{Line, Reader};

// One line more; its fault gets the line's place.
fn read_placed(building: &mut Building<'_>, line: Line<'_>) -> Result<(), FaultAt>
    ensures later { let l = line.entry in
        outcome result building.new.draft
        ≡ placed (line_of l).place
        (rest_read building.old.text.now building.old.draft (line_of l) (left l)) }
    ensures same_text { building.new.text ≡ building.old.text }
{
    let place = line.part().place;
    building
        .read_line(line)
        .map_err(|fault| FaultAt { place, fault })
}

// The draft of a text.
fn read_fresh(text: &[u8]) -> Result<Draft, TextFault>
    ensures { result ≡ read_text text.now }
{
    if text.len() > 8192 {
        return Err(TextFault::LongText);
    }
    let mut building = Building {
        draft: Draft::empty(),
        text,
    };
    let mut reader = Reader::new(text);
    while let Some(line) = reader.next_line() {
        read_placed(&mut building, line)?;
    }
    Ok(building.draft)
}

/// Reads a text into the draft, whatever that held; a refused text leaves it empty.
pub fn read(text: &[u8], draft: &mut Draft) -> Result<(), TextFault>
    ensures answer { result ≡ answered tt (read_text text.now) }
    ensures later { draft.new ≡ after nothing (read_text text.now) }
    ensures laws { ReadLaws text.now result draft.new }
{
    *draft = Draft::empty();
    *draft = read_fresh(text)?;
    Ok(())
}
