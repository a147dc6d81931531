//! The board as a resource.
ghost use Rattle.std.specs.Prelude.{◌≡◌, ℕ, ◌&&◌, if◌then◌else◌, ◌==◌, nat_lt};
ghost use Rattle.slow_board.specs.Slots.{fresh};
ghost use Rattle.slow_board.specs.Board.{slot_at, board_meaning};

use crate::slot::Slot;
use resource::answer::Progress;
use resource::resource::Resource;
use sets::number_set::WaySet;

/// The eight ways of the board, one slot for each.
#[derive(Drop)]
pub struct SlowBoard {
    slots: [Slot; 8],
}

impl SlowBoard {
    /// All ways clean, each with a scrub of one call and so many further ones.
    pub fn of_even_costs(extra: u16) -> SlowBoard
        ensures { (w : ℕ) → slot_at result w ≡ (if nat_lt w 8 then fresh extra else fresh 0) }
    {
        SlowBoard {
            slots: [Slot::clean(extra); 8],
        }
    }

    /// Makes one way a clean one, with a scrub of one call and so many further ones.
    pub fn set_cost(&mut self, way: u8, extra: u16)
        ensures { let this = λ (w : ℕ). nat_lt w 8 && w == way in
            (w : ℕ) → slot_at self.new w ≡ (if this w then fresh extra else slot_at self.old w) }
    {
        self.put(way, Slot::clean(extra));
    }

    // The state of a way; past the last there is only a clean one. What this shares with the row banks' `bank` is std's `get`.
    fn slot(&self, way: u8) -> Slot
        ensures { result ≡ slot_at self.now way }
    {
        self.slots
            .get(way as usize)
            .copied()
            .unwrap_or(Slot::clean(0))
    }

    // Puts one way into this state.
    fn put(&mut self, way: u8, slot: Slot)
        ensures { let this = λ (w : ℕ). nat_lt w 8 && w == way in
            (w : ℕ) → slot_at self.new w ≡ (if this w then slot else slot_at self.old w) }
    {
        if way < 8 {
            self.slots[way as usize] = slot;
        }
    }
}

impl Resource for SlowBoard {
    ghost meaning = { board_meaning };

    fn way_count(&self) -> u8 {
        self.slots.len() as u8
    }

    fn cost_of(&self, way: u8) -> u16 {
        if way < 8 {
            self.slot(way).extra.saturating_add(1)
        } else {
            0
        }
    }

    fn is_clean(&self, way: u8) -> bool {
        self.slot(way).is_bare()
    }

    fn run(&mut self, task: u8, ways: WaySet, address: u32) {
        // A loop, since `from_fn` would write all eight places at each call.
        if task < 16 {
            for way in 0..8u8 {
                if ways.contains(way) {
                    let after = self.slot(way).run_by(task);
                    self.put(way, after);
                }
            }
        }
    }

    fn scrub(&mut self, way: u8) -> Progress {
        let before = self.slot(way);
        self.put(way, before.scrubbed());
        if before.calls_after_next() == 0 {
            Progress::Done
        } else {
            Progress::UnderWay
        }
    }
}
