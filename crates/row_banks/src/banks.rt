//! The row banks as a resource.
ghost use Rattle.std.specs.Prelude.{◌≡◌, ℕ, ◌&&◌, if◌then◌else◌, ◌==◌, nat_lt};
ghost use Rattle.row_banks.specs.declared.bank.Bank.TheVariants.{Closed};
ghost use Rattle.row_banks.specs.Board.{bank_at, banks_meaning};

use crate::bank::Bank;
use resource::answer::Progress;
use resource::resource::Resource;
use sets::number_set::WaySet;

/// The eight banks, one for each way.
#[derive(Drop)]
pub struct RowBanks {
    banks: [Bank; 8],
}

impl RowBanks {
    /// All banks closed.
    pub fn closed() -> RowBanks
        ensures { (w : ℕ) → bank_at result w ≡ Closed }
    {
        RowBanks {
            banks: [Bank::Closed; 8],
        }
    }

    /// The bank of a way; past the last way there is nothing but a closed one.
    pub fn bank(&self, way: u8) -> Bank
        ensures { result ≡ bank_at self.now way }
    {
        self.banks
            .get(way as usize)
            .copied()
            .unwrap_or(Bank::Closed)
    }

    // Puts the bank of one way into this state.
    fn put(&mut self, way: u8, bank: Bank)
        ensures { let this = λ (w : ℕ). nat_lt w 8 && w == way in
            (w : ℕ) → bank_at self.new w ≡ (if this w then bank else bank_at self.old w) }
    {
        if way < 8 {
            self.banks[way as usize] = bank;
        }
    }
}

impl Resource for RowBanks {
    ghost meaning = { banks_meaning };

    fn way_count(&self) -> u8 {
        self.banks.len() as u8
    }

    fn cost_of(&self, way: u8) -> u16 {
        if way < self.way_count() { 1 } else { 0 }
    }

    fn is_clean(&self, way: u8) -> bool {
        self.bank(way).is_vacant()
    }

    fn run(&mut self, task: u8, ways: WaySet, address: u32) {
        // A loop, since `from_fn` would write all eight places at each call.
        if task < 16 {
            let row = address / 1024;
            for way in 0..8u8 {
                if ways.contains(way) {
                    self.put(way, Bank::Open { row, owner: task });
                }
            }
        }
    }

    fn scrub(&mut self, way: u8) -> Progress {
        self.put(way, Bank::Closed);
        Progress::Done
    }
}
