//! A day over one resource: the plan, the start, the calls, and the remarks at its end.
ghost use Rattle.std.specs.Prelude.{OnOk};
ghost use Rattle.textparts.specs.View.{to_come};
ghost use Rattle.replay.specs.Day.{Planned};

mod calls;
mod remarks;

use analysis::analyse::analyse;
use analysis::plan::Plan;
use daycalls::go::Pile;
use daylines::answers::refused;
use daylines::book::Book;
use dispatch::dispatcher::Dispatcher;
use pair::Pair;
use reserve::Reserve;
use resource::resource::Resource;
use row_banks::banks::RowBanks;
use std::alloc::AllocError;
use taskset::draft::Draft;
use textparts::reader::Reader;
use way_cache::cache::WayCache;

// A day that was started: the draft and the text that it was read from, the plan, what runs by it, and what is counted and told of it.
#[derive(Drop)]
struct Day<'t, 'r, R> {
    draft: &'t Draft,
    text: &'t [u8],
    plan: &'t Plan,
    dispatcher: Dispatcher,
    resource: &'r mut R,
    book: Book,
    out: &'r mut Vec<u8>,
}

// The output, the draft, the text and the reader stay arguments: `plan_day` and `on_pile` are public, and a struct of the four would be one
// more thing that a caller has to make first.
/// The day of a table on any resource: its calls up to the reader's last line, each told as it is answered.
pub fn plan_day<R: Resource>(
    out: &mut Vec<u8>,
    draft: &Draft,
    text: &[u8],
    reader: &mut Reader<'_>,
    resource: &mut R,
) -> Result<(), AllocError>
    ensures { let before = R.meaning.seen resource.old in
        let lines = to_come reader.old in
        OnOk result (Planned text.now draft.now before lines out.old.items out.new.items) }
{
    let mut plan = Plan::empty();
    if let Err(fault) = analyse(draft, resource, &mut [0; 16], &mut [0; 16], &mut plan) {
        return refused(out, &fault);
    }
    let mut dispatcher = Dispatcher::new();
    if let Err(fault) = dispatcher.start(&plan, resource) {
        return refused(out, &fault);
    }
    let mut day = Day {
        draft,
        text,
        plan: &plan,
        dispatcher,
        resource,
        book: Book::new(),
        out,
    };
    day.calls(reader)?;
    day.remarks()
}

// A `match` and not a `&mut dyn Resource`: each arm is one generic call, and a call through the trait object would have to be given what
// the resource means besides.
/// The day of a table on the resource of that name.
pub fn on_pile(
    out: &mut Vec<u8>,
    draft: &Draft,
    text: &[u8],
    reader: &mut Reader<'_>,
    pile: Pile,
) -> Result<(), AllocError> {
    let mut marks = [255u8; 256];
    match pile {
        Pile::Cache => {
            let mut cache = WayCache::empty_over(&mut marks);
            plan_day(out, draft, text, reader, &mut cache)
        }
        Pile::Banks => {
            let mut banks = RowBanks::closed();
            plan_day(out, draft, text, reader, &mut banks)
        }
        Pile::Both => {
            let mut both = Pair::new(WayCache::empty_over(&mut marks), RowBanks::closed());
            plan_day(out, draft, text, reader, &mut both)
        }
        Pile::Reserved => {
            let both = Pair::new(WayCache::empty_over(&mut marks), RowBanks::closed());
            let mut reserved = Reserve::new(2, both);
            plan_day(out, draft, text, reader, &mut reserved)
        }
    }
}
