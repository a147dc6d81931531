/// A floor's task in plain figures, apart from all types of the library.
#[derive(Clone, Copy)]
pub struct Line {
    pub period: u32,
    pub budget: u32,
    pub deadline: u32,
    // A flag, and no kind of the library: the second analysis shares no type with the first.
    pub whole: bool,
    /// bit w: the task uses way w
    // Bits, and no set of the library: the second analysis shares no type with the first.
    pub ways: u8,
    /// bit k: task k must not leak to this one
    // Bits, and no set of the library: the second analysis shares no type with the first.
    pub apart: u16,
}

fn has_bit(bits: u16, place: usize) -> bool {
    place < 16 && (bits >> place) % 2 == 1
}

impl Line {
    /// Does the task use the way?
    pub fn uses(self, way: usize) -> bool {
        has_bit(u16::from(self.ways), way)
    }

    /// Must the other task not leak to this one?
    pub fn is_apart_from(self, task: usize) -> bool {
        has_bit(self.apart, task)
    }
}
