//! The shapes of words: names and numbers.
ghost use Rattle.std.specs.Prelude.{◌≡◌, ◌≤◌, true, length, if◌then◌else◌, Some, None};
ghost use Rattle.textparts.specs.declared.bytes.Class.TheVariants.{Digit};
ghost use Rattle.textparts.specs.Bytes.{has, each};
ghost use Rattle.textparts.specs.Shapes.{is_name, is_number, worth};

use crate::bytes::Class;

/// 1 to 16 bytes: a small letter, then small letters, digits or hyphens.
pub fn is_name(bytes: &[u8]) -> bool
    ensures { result ≡ is_name bytes.now }
{
    match bytes {
        [first, ..] if bytes.len() <= 16 => Class::Letter.has(*first) && Class::NameByte.all(bytes),
        _ => false,
    }
}

// The value of up to seven digits.
#[tactic(auto, using(crate::proofs::Digits::seven))]
fn worth_of(bytes: &[u8]) -> u32
    requires few { length bytes.now ≤ 7 }
    requires digits { each (has Digit) bytes.now ≡ true }
    ensures { result ≡ worth 0 bytes.now }
{
    // A loop and no `fold`: that each step stays within 32 bits is found of the loop's variables, and not of what a fold passes on.
    let mut value = 0u32;
    for b in bytes {
        value = value * 10 + u32::from(*b - b'0');
    }
    value
}

/// The value of 1 to 7 digits with no needless 0 in front; no other bytes are a number.
pub fn number(bytes: &[u8]) -> Option<u32>
    ensures { result ≡ (if is_number bytes.now then Some (worth 0 bytes.now) else None) }
{
    match bytes {
        [] | [b'0', _, ..] => None,
        _ if bytes.len() <= 7 && Class::Digit.all(bytes) => Some(worth_of(bytes)),
        _ => None,
    }
}
