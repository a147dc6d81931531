//! A choice out of a list.
ghost use Rattle.std.specs.Prelude.{◌≡◌, ◌%◌, length, slice_index};
ghost use Rattle.chance.specs.Draws.{advanced, shown};

use crate::Chance;

impl Chance {
    /// One of the choices; 0 where there is none.
    pub fn one_of(&mut self, choices: &[u32]) -> u32
        ensures later { self.new.state ≡ advanced self.old.state }
        ensures value { result
            ≡ slice_index choices.now (shown (advanced self.old.state) % length choices.now) }
    {
        let any = self.draw() as usize;
        if choices.is_empty() {
            0
        } else {
            choices[any % choices.len()]
        }
    }
}
