//! What is told of a part that is sound.
ghost use Rattle.std.specs.Prelude.{◌≡◌, ◌+◌, ◌<◌, ◌^◌};
ghost use Rattle.verify_cmd.specs.Counting.{counted, joined};

use view_judge::ViewsReport;

/// How many cells of all views meet a part, and of how many the chunk is stored, and absent.
#[derive(Clone, Copy, Debug, PartialEq, Eq)]
pub struct Report {
    pub cells: u64,
    pub stored: u64,
    pub absent: u64,
}

/// A report with a cell more.
pub(crate) fn count_cell(report: Report, is_stored: bool) -> Report
    requires few { report.cells < 2 ^ 63 }
    requires both { report.stored + report.absent ≡ report.cells }
    ensures { result ≡ counted report is_stored }
{
    let cells = report.cells + 1;
    if is_stored {
        return Report {
            cells,
            stored: report.stored + 1,
            absent: report.absent,
        };
    }
    Report {
        cells,
        stored: report.stored,
        absent: report.absent + 1,
    }
}

/// A report of the first view, with the numbers of the further ones.
pub(crate) fn join_reports(first: Report, others: ViewsReport) -> Report
    requires cells { first.cells + others.cells < 2 ^ 64 }
    requires stored { first.stored + others.stored < 2 ^ 64 }
    requires absent { first.absent + others.absent < 2 ^ 64 }
    ensures { result ≡ joined first others }
{
    Report {
        cells: first.cells + others.cells,
        stored: first.stored + others.stored,
        absent: first.absent + others.absent,
    }
}
