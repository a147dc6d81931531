//! What the draft answers, on examples: its ranges at their edges, and each refusal with its number, detail and word.
#![tactic(auto)]

use refusal::Refusal;
use sets::number_set::WaySet;
use taskset::draft::Draft;
use taskset::fault::DraftFault;
use taskset::task::{Figures, Kind, Name, Task};

// A split task on way 0. The dispatcher's tests have the like of their own: a library for one short maker would be no plainer.
fn figures(period: u32, budget: u32, deadline: u32) -> Figures {
    let ways = WaySet::empty().with(0);
    Figures {
        period,
        budget,
        deadline,
        ways,
        kind: Kind::Split,
    }
}

// The number of the refusal of a task with these figures, or none where a draft takes it.
fn refusal_of(f: Figures) -> Option<u8> {
    Draft::empty().add(f).err().map(|e| e.number())
}

// A draft of n tasks.
fn draft_of(n: u8) -> Draft {
    let mut draft = Draft::empty();
    for _ in 0..n {
        let _ = draft.add(figures(10, 1, 10));
    }
    draft
}

#[cfg(test)]
mod tests {
    use super::*;
    use std::test::Fail;

    #[test]
    fn ranges_at_their_edges(rt: HostRuntime) {
        let cases = [
            (1, 1, 1, 0),
            (1_000_000, 60_000, 1_000_000, 0),
            (0, 1, 1, 8),
            (1_000_001, 1, 1, 8),
            (9_999_999, 1, 1, 8),
            (10, 0, 10, 8),
            (100_000, 60_001, 10, 8),
            (10, 1, 0, 8),
            (10, 1, 11, 8),
        ];
        for (period, budget, deadline, number) in cases {
            assert_eq!(rt;
                refusal_of(figures(period, budget, deadline)).unwrap_or(0),
                number,
                "period, budget or deadline"
            );
        }
        let mut no_ways = figures(10, 1, 10);
        no_ways.ways = WaySet::empty();
        assert_eq!(rt; refusal_of(no_ways).unwrap_or(0), 8, "no ways");
    }

    #[test]
    fn seventeenth_task(rt: HostRuntime) {
        let mut draft = draft_of(16);
        assert_eq!(rt; draft.count(), 16);
        assert_eq!(rt; draft.add(figures(10, 1, 10)), Err(DraftFault::FullTable));
        assert_eq!(rt;
            draft.add(figures(0, 1, 10)),
            Err(DraftFault::FullTable),
            "full comes before wild"
        );
        assert_eq!(rt; draft.count(), 16, "a refusal alters nothing");
    }

    #[test]
    fn pairs(rt: HostRuntime) {
        let mut draft = draft_of(3);
        assert_eq!(rt; draft.add_pair(0, 2), Ok(()));
        assert_eq!(rt; draft.add_pair(0, 2), Ok(()), "twice counts once");
        assert_eq!(rt; draft.has_pair(0, 2), Ok(true));
        assert_eq!(rt; draft.has_pair(2, 0), Ok(false));
        assert_eq!(rt; draft.add_pair(1, 1), Err(DraftFault::Itself));
        assert_eq!(rt;
            draft.add_pair(3, 3),
            Err(DraftFault::Unlisted),
            "unlisted comes first"
        );
        assert_eq!(rt; draft.add_pair(1, 3), Err(DraftFault::Unlisted));
        assert_eq!(rt; draft.has_pair(255, 0), Err(DraftFault::Unlisted));
    }

    #[test]
    fn names_out_of_a_text(rt: HostRuntime) -> Result<(), Fail> {
        let mut draft = Draft::empty();
        let text = b"task pick";
        assert_eq!(rt; draft.add(figures(10, 1, 10)), Ok(0));
        let name = Name { place: 5, len: 4 };
        let past = Name { place: 5, len: 5 };
        assert_eq!(rt;
            draft.add_named(Task {
                figures: figures(10, 1, 10),
                name,
            }),
            Ok(1)
        );
        assert_eq!(rt;
            draft.add_named(Task {
                figures: figures(10, 1, 10),
                name: past,
            }),
            Ok(2)
        );
        assert_eq!(rt; draft.name(0, text)?.len(), 0, "added by figures");
        assert!(rt; draft.name(1, text)? == b"pick".as_slice());
        assert_eq!(rt; draft.name(2, text)?.len(), 0, "runs past the end");
        assert!(rt; draft.name(3, text).is_err());
        Ok(())
    }

    #[test]
    fn what_refusals_tell(rt: HostRuntime) {
        let cases = [
            (DraftFault::FullTable, 7, "full table"),
            (DraftFault::WildFigure, 8, "wild figure"),
            (DraftFault::Itself, 9, "itself"),
            (DraftFault::Unlisted, 16, "unlisted"),
        ];
        for (fault, number, word) in cases {
            assert_eq!(rt; fault.number(), number);
            assert_eq!(rt; fault.detail(), 0);
            assert_eq!(rt; fault.word(), word);
        }
    }
}
