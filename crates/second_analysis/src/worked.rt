//! Floors whose bounds were worked out by hand, for the second analysis alone.
use crate::lines::Line;
use crate::second::{Costs, Floor, Verdict};
use std::alloc::{AllocError, Global};

const PICK: Line = Line {
    period: 10,
    budget: 1,
    deadline: 10,
    whole: false,
    ways: 1,
    apart: 0b110,
};

const SEAL: Line = Line {
    period: 20,
    budget: 3,
    deadline: 20,
    whole: true,
    ways: 1,
    apart: 0b001,
};

const SEND: Line = Line {
    period: 60,
    budget: 5,
    deadline: 60,
    whole: false,
    ways: 1,
    apart: 0b010,
};

const ALONE: Line = Line {
    period: 5,
    budget: 5,
    deadline: 5,
    whole: true,
    ways: 1,
    apart: 0,
};

fn is_accepted_with(second: &Verdict, expected: &[u32]) -> bool {
    matches!(second, Ok(bounds) if bounds.as_slice() == expected)
}

fn has_no_bound_for(second: &Verdict, task: usize) -> bool {
    matches!(second, Err(refused) if refused.number == 14 && refused.detail == task)
}

// The second analysis of these tasks, with a place for each.
fn conclude(alloc: Global, lines: &[Line], costs: Costs) -> Result<Verdict, AllocError> {
    Floor { lines, costs }.conclude(alloc, lines.len())
}

// Three tasks that share a way, then with a shorter deadline for the last, then each on a way of its own.
fn three_tasks(alloc: Global, costs: Costs) -> Result<bool, AllocError> {
    let shared = conclude(alloc, &[PICK, SEAL, SEND], costs)?;
    let sooner = Line {
        deadline: 59,
        ..SEND
    };
    let tight = conclude(alloc, &[PICK, SEAL, sooner], costs)?;
    let too_soon = Line {
        deadline: 58,
        ..SEND
    };
    let late = conclude(alloc, &[PICK, SEAL, too_soon], costs)?;
    let seal = Line { ways: 2, ..SEAL };
    let send = Line { ways: 4, ..SEND };
    let apart = conclude(alloc, &[PICK, seal, send], costs)?;
    Ok(
        is_accepted_with(&shared, &[7, 12, 59])
            && is_accepted_with(&tight, &[7, 12, 59])
            && has_no_bound_for(&late, 2)
            && is_accepted_with(&apart, &[3, 6, 9]),
    )
}

// One whole task that fills its period, and one that asks for more.
fn one_task(alloc: Global, costs: Costs) -> Result<bool, AllocError> {
    let full = conclude(alloc, &[ALONE], costs)?;
    let greedy = Line { budget: 6, ..ALONE };
    let over = conclude(alloc, &[greedy], costs)?;
    Ok(is_accepted_with(&full, &[5]) && has_no_bound_for(&over, 0))
}

/// Does the second analysis conclude on all of them as by hand, where each way costs 2?
pub fn are_as_by_hand(alloc: Global) -> Result<bool, AllocError> {
    let costs = [2u16; 8];
    Ok(three_tasks(alloc, costs)? && one_task(alloc, costs)?)
}
