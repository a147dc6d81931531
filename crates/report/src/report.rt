//! The report on a text.
ghost use Rattle.std.specs.Prelude.{◌≡◌, ◌≤◌, length, IfOk};
ghost use Rattle.tabletext.specs.Read.{read_text};
ghost use Rattle.taskset.specs.Table.{count};
ghost use Rattle.report.specs.Page.{refusal_line};
ghost use Rattle.report.specs.Pages.{HasRoom, IsBlank, Leaves, Writes};
ghost use Rattle.report.specs.Report.{Reported, ReportLeaves, Settled, TableReported};
ghost use Rattle.report.specs.Rows.{rows_below};

use crate::fault::ReportFault;
use crate::judge::{Margins, judge};
use crate::named::{NamedDraft, read_named};
use crate::page::Page;
use refusal::Refusal;

/// The bytes of the longest report: sixteen lines of a name of 16 bytes and two numbers of 7.
pub const LONGEST_REPORT: usize = 16 * LONGEST_ROW;

// A name, two numbers, two spaces and the line's end.
const LONGEST_ROW: usize = 16 + 7 + 7 + 3;

// The line of a refusal.
fn put_refusal<F: Refusal>(page: &mut Page<'_>, fault: &F)
    requires { HasRoom page.old LONGEST_REPORT }
    ensures { Writes page.old (refusal_line (F.told fault.now)) page.new }
{
    page.put_row(b"no", fault.number(), fault.detail());
}

// The lines of all tasks.
fn put_rows(page: &mut Page<'_>, named: &NamedDraft<'_>, margins: &Margins)
    requires room { HasRoom page.old LONGEST_REPORT }
    requires settled { Settled named.now.draft margins.now.bounds margins.now.slacks }
    ensures { let t = named.now.draft in
        let m = margins.now in
        let rows = rows_below named.now.text.now t.tasks m.bounds m.slacks (count t) in
        Writes page.old rows page.new }
{
    let numbers = margins.bounds.iter().zip(&margins.slacks);
    for (task, (bound, slack)) in named.draft.tasks().iter().zip(numbers) {
        page.put_row(task.name.within(named.text), *bound, *slack);
    }
}

// The verdict on what was read.
fn put_verdict(page: &mut Page<'_>, named: &NamedDraft<'_>)
    requires { IsBlank page.old }
    ensures { Leaves page.old (TableReported named.now.text.now named.now.draft) page.new }
{
    match judge(&named.draft) {
        Ok(margins) => put_rows(page, named, &margins),
        Err(fault) => put_refusal(page, &fault),
    }
}

fn put_report(page: &mut Page<'_>, text: &[u8])
    requires { IsBlank page.old }
    ensures { Leaves page.old (Reported text.now (read_text text.now)) page.new }
{
    match read_named(text) {
        Ok(named) => put_verdict(page, &named),
        Err(fault) => put_refusal(page, &fault),
    }
}

/// Makes the report on a text at the beginning of the buffer, and answers how many bytes it has; later bytes stay as they were.
pub fn report(text: &[u8], buf: &mut [u8]) -> Result<usize, ReportFault>
    ensures report { ReportLeaves text.now buf.old result buf.new }
    ensures within { IfOk result (λ len. len ≤ length buf.new) }
{
    if buf.len() < LONGEST_REPORT {
        return Err(ReportFault::ShortBuffer);
    }
    let mut page = Page::over(buf);
    put_report(&mut page, text);
    Ok(page.len())
}
