//! The state of one bank.
ghost use Rattle.std.specs.Prelude.{◌≡◌};
ghost use Rattle.row_banks.specs.Banks.{vacant};

/// One bank: closed, or open at a row for its owner, the task whose trace it holds.
#[derive(Clone, Copy, PartialEq, Eq, Debug)]
pub enum Bank {
    Closed,
    Open { row: u32, owner: u8 },
}

impl Bank {
    /// Does the bank hold no trace? No call opens a bank for an owner past 15; such a one would hold none.
    pub fn is_vacant(self) -> bool
        ensures { result ≡ vacant self }
    {
        // The guard stays, since a variant has no ghost field that could say that its owner is a task.
        match self {
            Bank::Closed => true,
            Bank::Open { row: _, owner } => owner >= 16,
        }
    }
}
