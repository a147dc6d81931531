//! One way of the board.
ghost use Rattle.std.specs.Prelude.{◌≡◌};
ghost use Rattle.slow_board.specs.Slots.{fresh, entered, bare, calls, lessened};

/// A scrub takes one call and `extra` further ones; `more` of those are still to come. The owner is the task whose trace the way holds.
#[derive(Clone, Copy)]
pub struct Slot {
    pub extra: u16,
    pub more: u16,
    pub owner: Option<u8>,
}

impl Slot {
    /// A way without a trace.
    pub fn clean(extra: u16) -> Slot
        ensures { result ≡ fresh extra }
    {
        Slot {
            extra,
            more: extra,
            owner: None,
        }
    }

    /// The way once the task has run there.
    pub fn run_by(self, task: u8) -> Slot
        ensures { result ≡ entered self task }
    {
        Slot {
            more: self.extra,
            owner: Some(task),
            ..self
        }
    }

    // The guard on owners stays: `run_by` takes any number, and a ghost field would ask something of its callers.
    /// Does the way hold no trace? No call enters it for an owner past 15; such a one would leave none.
    pub fn is_bare(self) -> bool
        ensures { result ≡ bare self }
    {
        self.owner.is_none_or(|owner| owner >= 16)
    }

    /// How many scrub calls follow the next one until the way is done.
    pub fn calls_after_next(self) -> u16
        ensures { result ≡ calls self }
    {
        self.more.min(self.extra)
    }

    /// The way after one scrub call.
    pub fn scrubbed(self) -> Slot
        ensures { result ≡ lessened self }
    {
        let calls = self.calls_after_next();
        if calls == 0 {
            Slot::clean(self.extra)
        } else {
            Slot {
                more: calls - 1,
                ..self
            }
        }
    }
}
