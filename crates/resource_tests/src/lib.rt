//! Piles of boards and layers: what a pile does to the memory lent to it, proved, and runs of calls with the traces and answers expected.
#![tactic(auto)]

ghost use Rattle.std.specs.Prelude.{◌≡◌, length};
ghost use Rattle.way_cache.specs.Marks.{Wiped};

use pair::Pair;
use reserve::Reserve;
use resource::resource::Resource;
use row_banks::banks::RowBanks;
use sets::number_set::WaySet;
use way_cache::cache::WayCache;

// A pile over the memory runs task 3 on its way 0, at line 8, and scrubs the way once; the memory goes back.
fn through_pile<'a>(memory: &'a mut [u8]) -> &'a mut [u8]
    requires { length memory.old ≡ 256 }
    ensures same { result.ghost_name ≡ memory.entry.ghost_name }
    ensures wiped { Wiped memory.old 64 16 result.now }
{
    let cache = WayCache::over(memory);
    let mut pile = Reserve::new(2, Pair::new(cache, RowBanks::closed()));
    let lowest = WaySet::empty().with(0);
    pile.run(3, lowest, 40);
    let _ = pile.scrub(0);
    let (_, rest) = pile.into_parts();
    let (cache, _) = rest.into_parts();
    cache.into_memory()
}

fn wipe_slice(memory: &mut [u8])
    requires { length memory.old ≡ 256 }
    ensures { Wiped memory.old 64 16 memory.new }
{
    let _back = through_pile(memory);
}

/// What that leaves of the lender's memory: the first block of way 2 is empty, and all else is as it was.
pub fn wipe_through_pile(memory: &mut [u8; 256])
    ensures { Wiped memory.old 64 16 memory.new }
{
    wipe_slice(memory);
}

#[cfg(test)]
mod tests {
    use pair::Pair;
    use reserve::Reserve;
    use resource::resource::Resource;
    use resource::until::{scrub_every_way, scrub_until_done};
    use row_banks::bank::Bank;
    use row_banks::banks::RowBanks;
    use sets::number_set::WaySet;
    use way_cache::cache::WayCache;

    // Scrubs the way four times; a digit for each call is 1 where it was done.
    // Digits, and no `[Progress; 4]`: what the tests expect is one number, which shows the four at a glance.
    fn four_scrubs<R: Resource>(r: &mut R, way: u8) -> u32 {
        let mut answers = 0u32;
        for _ in 0..4u8 {
            answers = (answers % 1000) * 10;
            if r.scrub(way).is_done() {
                answers += 1;
            }
        }
        answers
    }

    // Two blocks of the cache and one bank make three calls; hidden ways, ways past the last and task 16 leave nothing.
    #[test]
    fn a_pile_runs_and_scrubs(rt: HostRuntime) {
        let mut memory = [255u8; 256];
        let mut pile = Reserve::new(
            2,
            Pair::new(WayCache::over(&mut memory), RowBanks::closed()),
        );
        assert!(rt; pile.way_count() == 6 && pile.cost_of(0) == 3 && pile.cost_of(6) == 0);
        pile.run(3, WaySet::empty().with(0).with(5).with(6), 40);
        pile.run(4, WaySet::empty().with(0), 1048);
        pile.run(16, WaySet::empty().with(1), 0);
        assert!(rt; !pile.is_clean(0) && pile.is_clean(1) && !pile.is_clean(5) && pile.is_clean(6));
        assert!(rt; four_scrubs(&mut pile, 0) == 11);
        assert!(rt; pile.is_clean(0) && !pile.is_clean(5));
        assert!(rt; scrub_until_done(&mut pile, 5) == 2 && scrub_until_done(&mut pile, 6) == 1);
    }

    // The parts come back as the calls left them.
    #[test]
    fn a_pile_comes_apart(rt: HostRuntime) {
        let mut memory = [7u8; 70];
        let mut pile = Reserve::new(
            1,
            Pair::new(WayCache::empty_over(&mut memory), RowBanks::closed()),
        );
        assert!(rt; pile.way_count() == 1);
        pile.run(9, WaySet::empty().with(0).with(1), 2085);
        let (hidden, rest) = pile.into_parts();
        let (cache, banks) = rest.into_parts();
        assert!(rt; hidden == 1 && cache.cost_of(1) == 2 && cache.cost_of(2) == 0);
        assert!(rt; banks.bank(1) == Bank::Open { row: 2, owner: 9 });
        assert!(rt; banks.bank(0) == Bank::Closed && banks.bank(2) == Bank::Closed);
        let marks = cache.into_memory();
        assert!(rt;
            marks.get(37) == Some(&9) && marks.get(5) == Some(&255) && marks.get(69) == Some(&255)
        );
    }

    // Layers over layers: each bank that was opened takes one call.
    #[test]
    fn layers_pile_deeper(rt: HostRuntime) {
        let low = Reserve::new(3, RowBanks::closed());
        let high = Pair::new(Reserve::new(12, RowBanks::closed()), RowBanks::closed());
        assert!(rt; high.way_count() == 0 && high.cost_of(0) == 0 && high.is_clean(0));
        let mut pile = Pair::new(low, Pair::new(RowBanks::closed(), RowBanks::closed()));
        assert!(rt; pile.way_count() == 5 && pile.cost_of(4) == 3 && pile.cost_of(5) == 0);
        pile.run(0, WaySet::empty().with(4), 4096);
        assert!(rt; scrub_until_done(&mut pile, 4) == 3 && scrub_until_done(&mut pile, 4) == 1);
        pile.run(15, WaySet::empty().with(0).with(3), 0);
        scrub_every_way(&mut pile);
        assert!(rt; pile.is_clean(0) && pile.is_clean(3));
    }
}
