//! What is told of views that say what the first one does.
ghost use Rattle.std.specs.Prelude.{◌≡◌, ◌+◌, ◌<◌, ◌^◌, Bool, if◌then◌else◌};

/// How many cells of the further views meet a part, and of how many the chunk is stored, and absent.
#[derive(Clone, Copy, Debug, PartialEq, Eq)]
pub struct ViewsReport {
    pub cells: u64,
    pub stored: u64,
    pub absent: u64,
}

/// No cell.
pub(crate) const NONE: ViewsReport = ViewsReport {
    cells: 0,
    stored: 0,
    absent: 0,
};

/// One cell.
pub(crate) fn one_cell(is_stored: bool) -> ViewsReport
    ensures cells { result.cells ≡ 1 }
    ensures stored { result.stored ≡ (if is_stored then 1 else 0) }
    ensures absent { result.absent ≡ (if is_stored then 0 else 1) }
{
    ViewsReport {
        cells: 1,
        stored: u64::from(is_stored),
        absent: u64::from(!is_stored),
    }
}

/// The cells of two reports.
pub(crate) fn add(report: ViewsReport, more: ViewsReport) -> ViewsReport
    requires cells { report.cells + more.cells < 2 ^ 64 }
    requires stored { report.stored + more.stored < 2 ^ 64 }
    requires absent { report.absent + more.absent < 2 ^ 64 }
    ensures cells { result.cells ≡ report.cells + more.cells }
    ensures stored { result.stored ≡ report.stored + more.stored }
    ensures absent { result.absent ≡ report.absent + more.absent }
{
    ViewsReport {
        cells: report.cells + more.cells,
        stored: report.stored + more.stored,
        absent: report.absent + more.absent,
    }
}
