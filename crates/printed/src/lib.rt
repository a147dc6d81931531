//! Text for people, piece by piece at the end of a list of bytes. Each piece is there whole, or memory ran out and the call says so.
#![tactic(auto)]

ghost use Rattle.std.specs.Prelude.{◌≡◌, ◌++◌, OnOk};
ghost use Rattle.printed.specs.Lines.{with_no, with_refusal};

use itoa::{Buffer, Integer};
use refusal::Refusal;
use std::alloc::AllocError;

/// These bytes.
pub fn bytes(out: &mut Vec<u8>, piece: &[u8]) -> Result<(), AllocError>
    ensures { OnOk result (out.new.items ≡ out.old.items ++ piece.now) }
{
    out.extend_from_slice(piece)
}

/// This text.
pub fn text(out: &mut Vec<u8>, piece: &str) -> Result<(), AllocError>
    ensures { OnOk result (out.new.items ≡ out.old.items ++ piece.now) }
{
    bytes(out, piece.as_bytes())
}

/// This number, in decimal digits.
pub fn number<N: Integer>(out: &mut Vec<u8>, n: N) -> Result<(), AllocError>
    ensures { OnOk result (out.new.items ≡ out.old.items ++ N.text n) }
{
    out.extend_from_slice(Buffer::new().format(n).as_bytes())
}

/// `no`, and a refusal's number and detail.
pub fn no<F: Refusal>(out: &mut Vec<u8>, fault: &F) -> Result<(), AllocError>
    ensures { OnOk result (out.new.items ≡ with_no out.old.items (F.told fault.now)) }
{
    text(out, "no ")?;
    number(out, fault.number())?;
    text(out, " ")?;
    number(out, fault.detail())
}

/// The same, and the refusal's word.
pub fn no_with_word<F: Refusal>(out: &mut Vec<u8>, fault: &F) -> Result<(), AllocError>
    ensures { OnOk result (out.new.items ≡ with_refusal out.old.items (F.told fault.now)) }
{
    no(out, fault)?;
    text(out, " ")?;
    text(out, fault.word())
}
