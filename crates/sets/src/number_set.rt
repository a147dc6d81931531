ghost use Rattle.std.specs.Prelude.{◌≡◌, ℕ, ◌-◌, false, ◌&&◌, ◌||◌, ◌==◌, nat_le, nat_lt};
ghost use Rattle.sets.specs.Sets.{has, in_range, members_below, nobody, with_member, is_memberless};

/// A set of numbers below `N`; sixteen of them, 0 to 15, can be in it at most.
// Every call leaves the bits past them unset, so that sets with the same members are equal.
#[derive(Clone, Copy, PartialEq, Eq, Debug)]
pub struct NumberSet<const N: u8> {
    bits: u16,
}

/// A set of ways, out of 0 to 7.
pub type WaySet = NumberSet<8>;

/// A set of tasks, out of 0 to 15.
pub type TaskSet = NumberSet<16>;

impl<const N: u8> NumberSet<N> {
    /// The set without a member.
    pub fn empty() -> Self
        ensures members { (k : ℕ) → has result k ≡ false }
        ensures value { result ≡ nobody N }
    {
        NumberSet { bits: 0 }
    }

    /// Is the number in the set?
    pub fn contains(self, k: u8) -> bool
        ensures { result ≡ has self.entry k }
    {
        k < N && k < 16 && (self.bits >> k) % 2 == 1
    }

    /// Is nobody in the set?
    pub fn is_empty(self) -> bool
        ensures { result ≡ is_memberless self.entry }
    {
        self.below(N).bits == 0
    }

    /// The set with one number more; none that is out of range comes in.
    pub fn with(self, k: u8) -> Self
        ensures members { (j : ℕ) → has result j ≡ (has self.entry j || (k == j && in_range N j)) }
        ensures value { result ≡ with_member self.entry k }
    {
        if k < N && k < 16 {
            NumberSet {
                bits: self.bits | (1 << k),
            }
        } else {
            self
        }
    }

    /// The members that lie below `n`.
    pub fn below(self, n: u8) -> Self
        ensures members { (k : ℕ) → has result k ≡ (has self.entry k && nat_lt k n) }
        ensures value { result ≡ members_below self.entry n }
    {
        if n >= 16 {
            return self;
        }
        NumberSet {
            bits: self.bits % (1 << n),
        }
    }

    /// Each member `j` as `j + k`; what would pass the range falls out.
    pub fn raised(self, k: u8) -> Self
        ensures members { (j : ℕ) → has result j
            ≡ ((nat_le k j && in_range N j) && has self.entry (j - k)) }
        ensures value { result ≡ members_below result N }
    {
        if k < 16 {
            let up: NumberSet<N> = NumberSet {
                bits: self.bits << k,
            };
            up.below(N)
        } else {
            NumberSet::empty()
        }
    }

    /// The numbers that are in this set or in the other.
    pub fn union(self, other: Self) -> Self
        ensures { (k : ℕ) → has result k ≡ (has self.entry k || has other.entry k) }
    {
        NumberSet {
            bits: self.bits | other.bits,
        }
    }

    /// The numbers that are in this set and in the other.
    pub fn intersection(self, other: Self) -> Self
        ensures { (k : ℕ) → has result k ≡ (has self.entry k && has other.entry k) }
    {
        NumberSet {
            bits: self.bits & other.bits,
        }
    }
}
