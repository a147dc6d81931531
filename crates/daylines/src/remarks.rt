//! The remarks at a day's end.
ghost use Rattle.std.specs.Prelude.{◌≡◌, OnOk};
ghost use Rattle.daylines.specs.Remarks.{with_batches, with_taken, with_refused, with_counted, with_ends, with_finishes, with_response, with_scrubs, with_unended, with_worst, with_worst_or};

use crate::book::Book;
use printed::{bytes, number, text as put};
use std::alloc::AllocError;

// A label and the count after it.
fn counted(out: &mut Vec<u8>, label: &str, n: u64) -> Result<(), AllocError>
    ensures { OnOk result (out.new.items ≡ with_counted out.old.items label.now n) }
{
    put(out, label)?;
    number(out, n)
}

// A remark of one count of batches.
fn batches(out: &mut Vec<u8>, label: &str, n: u64) -> Result<(), AllocError>
    ensures { OnOk result (out.new.items ≡ with_batches out.old.items label.now n) }
{
    put(out, "# batches ")?;
    counted(out, label, n)?;
    put(out, "\n")
}

// The four remarks of two counts stay four: one function for them would have each of their five words and both counts as an argument.

/// How many batches were taken.
pub fn taken(out: &mut Vec<u8>, book: &Book) -> Result<(), AllocError>
    ensures { OnOk result (out.new.items ≡ with_taken out.old.items book.now) }
{
    batches(out, "taken: ", book.taken)
}

/// How many were refused, and why.
pub fn refused(out: &mut Vec<u8>, book: &Book) -> Result<(), AllocError>
    ensures { OnOk result (out.new.items ≡ with_refused out.old.items book.now) }
{
    put(out, "# batches ")?;
    counted(out, "refused: ", book.early)?;
    put(out, " too early")?;
    counted(out, ", ", book.unlisted)?;
    put(out, " unlisted\n")
}

/// How many ended, and how.
pub fn ends(out: &mut Vec<u8>, book: &Book) -> Result<(), AllocError>
    ensures { OnOk result (out.new.items ≡ with_ends out.old.items book.now) }
{
    put(out, "# batches ")?;
    counted(out, "ended: ", book.spent)?;
    put(out, " by budget")?;
    counted(out, ", ", book.called)?;
    put(out, " by call\n")
}

/// How many have not ended.
pub fn unended(out: &mut Vec<u8>, book: &Book) -> Result<(), AllocError>
    ensures { OnOk result (out.new.items ≡ with_unended out.old.items book.now) }
{
    batches(out, "unended: ", book.unended())
}

/// Why finishes were refused.
pub fn finishes(out: &mut Vec<u8>, book: &Book) -> Result<(), AllocError>
    ensures { OnOk result (out.new.items ≡ with_finishes out.old.items book.now) }
{
    put(out, "# finishes")?;
    counted(out, " refused: ", book.idle)?;
    put(out, " not")?;
    counted(out, " running, ", book.strange)?;
    put(out, " unlisted\n")
}

/// The ticks spent scrubbing, next to the allowances.
pub fn scrubs(out: &mut Vec<u8>, book: &Book) -> Result<(), AllocError>
    ensures { OnOk result (out.new.items ≡ with_scrubs out.old.items book.now) }
{
    put(out, "# scrub ")?;
    counted(out, "ticks: ", book.scrubs)?;
    put(out, ",")?;
    counted(out, " allowed: ", book.allowed)?;
    put(out, "\n")
}

fn worst(out: &mut Vec<u8>, ticks: u32) -> Result<(), AllocError>
    ensures { OnOk result (out.new.items ≡ with_worst out.old.items ticks) }
{
    put(out, ": worst")?;
    counted(out, " response ", u64::from(ticks))
}

// A worst response, or that no batch has ended, which 0 says: why it is no `Option` stands at `worst` of a `Watch`.
fn worst_or_none(out: &mut Vec<u8>, ticks: u32) -> Result<(), AllocError>
    ensures { OnOk result (out.new.items ≡ with_worst_or out.old.items ticks) }
{
    if ticks == 0 {
        put(out, ": no end")
    } else {
        worst(out, ticks)
    }
}

/// A task's worst response next to its bound.
pub fn response(out: &mut Vec<u8>, name: &[u8], ticks: u32, bound: u32) -> Result<(), AllocError>
    ensures { OnOk result (out.new.items ≡ with_response out.old.items name.now ticks bound) }
{
    put(out, "# ")?;
    bytes(out, name)?;
    worst_or_none(out, ticks)?;
    counted(out, ", bound ", u64::from(bound))?;
    put(out, "\n")
}
