//! The dispatcher on examples: a run worked by hand on the row banks, and each refusal of its calls.
#![tactic(auto)]

use analysis::analyse::analyse;
use analysis::plan::Plan;
use dispatch::dispatcher::Dispatcher;
use resource::answer::Progress;
use row_banks::banks::RowBanks;
use runs::answer::TickAnswer;
use runs::fault::{CallFault, StartFault};
use sets::number_set::WaySet;
use taskset::draft::Draft;
use taskset::fault::DraftFault;
use taskset::task::{Figures, Kind};

// A split task on way 0. The task set's tests have the same as `figures`: fixtures of two crates that share nothing else.
fn split(period: u32, budget: u32, deadline: u32) -> Figures {
    let ways = WaySet::empty().with(0);
    Figures {
        period,
        budget,
        deadline,
        ways,
        kind: Kind::Split,
    }
}

// Two split tasks on way 0, where task 0 must not run on a trace of task 1.
fn two_tasks() -> Result<Draft, DraftFault> {
    let mut draft = Draft::empty();
    draft.add(split(10, 1, 10))?;
    draft.add(split(20, 3, 20))?;
    draft.add_pair(1, 0)?;
    Ok(draft)
}

#[cfg(test)]
mod tests {
    use super::*;
    use std::test::Fail;

    // A dispatcher that has started the two tasks on these banks.
    fn started(banks: &mut RowBanks) -> Result<Dispatcher, Fail> {
        let draft = two_tasks()?;
        let mut bounds = [0u32; 16];
        let mut slacks = [0u32; 16];
        let mut plan = Plan::empty();
        analyse(&draft, banks, &mut bounds, &mut slacks, &mut plan)?;
        let mut dispatcher = Dispatcher::new();
        dispatcher.start(&plan, banks)?;
        Ok(dispatcher)
    }

    #[test]
    fn run_by_hand(rt: HostRuntime) -> Result<(), Fail> {
        let mut banks = RowBanks::closed();
        let mut d = started(&mut banks)?;
        assert_eq!(rt; d.announce(1), Ok(()));
        assert_eq!(rt;
            d.tick(&mut banks, 0),
            TickAnswer::Run {
                task: 1,
                ended: false,
            }
        );
        assert_eq!(rt; d.announce(0), Ok(()));
        let expected = [
            TickAnswer::Scrub {
                task: 0,
                way: 0,
                progress: Progress::Done,
            },
            TickAnswer::Run {
                task: 0,
                ended: true,
            },
            TickAnswer::Run {
                task: 1,
                ended: false,
            },
            TickAnswer::Run {
                task: 1,
                ended: true,
            },
            TickAnswer::Rest,
        ];
        for answer in expected {
            assert_eq!(rt; d.tick(&mut banks, 1), answer);
        }
        Ok(())
    }

    #[test]
    fn too_early_until_the_period(rt: HostRuntime) -> Result<(), Fail> {
        let mut banks = RowBanks::closed();
        let mut d = started(&mut banks)?;
        assert_eq!(rt; d.announce(0), Ok(()));
        for _ in 0..9 {
            let _ = d.tick(&mut banks, 0);
        }
        assert_eq!(rt; d.announce(0), Err(CallFault::TooEarly), "nine ticks after");
        let _ = d.tick(&mut banks, 0);
        assert_eq!(rt; d.announce(0), Ok(()), "ten ticks after");
        Ok(())
    }

    #[test]
    fn finishes_and_unlisted_tasks(rt: HostRuntime) -> Result<(), Fail> {
        let mut banks = RowBanks::closed();
        let mut d = started(&mut banks)?;
        assert_eq!(rt; d.announce(2), Err(CallFault::Unlisted));
        assert_eq!(rt; d.finish(2), Err(CallFault::Unlisted));
        assert_eq!(rt; d.finish(1), Err(CallFault::NotRunning), "nothing has run");
        assert_eq!(rt; d.announce(1), Ok(()));
        let _ = d.tick(&mut banks, 0);
        assert_eq!(rt; d.finish(0), Err(CallFault::NotRunning), "another ran");
        assert_eq!(rt; d.finish(1), Ok(()));
        assert_eq!(rt; d.finish(1), Err(CallFault::NotRunning), "once is enough");
        assert_eq!(rt; d.tick(&mut banks, 0), TickAnswer::Rest);
        Ok(())
    }

    #[test]
    fn never_started_and_empty_plans(rt: HostRuntime) {
        let mut banks = RowBanks::closed();
        let mut d = Dispatcher::new();
        assert_eq!(rt; d.tick(&mut banks, 0), TickAnswer::Rest);
        assert_eq!(rt; d.announce(0), Err(CallFault::Unlisted));
        assert_eq!(rt;
            d.start(&Plan::empty(), &mut banks),
            Err(StartFault::NoTask)
        );
    }
}
