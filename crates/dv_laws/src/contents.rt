ghost use Rattle.dv_laws.specs.Laws.{AbsentLeaves, ContentsDecide, ContentsDecidePeriods, EmptyBefore, LaterLeaves};
ghost use Rattle.dv_laws.specs.Ties.{PeriodsTied};

/// A feed has no content before the first window; a window without a feed leaves the feed's content at each
/// date, its periods and its tables; and a window that is later than a date leaves each mart and the snapshot
/// at the date.
pub fn contents_stay()
    ensures before { EmptyBefore }
    ensures absent { AbsentLeaves }
    ensures later { LaterLeaves }
{}

/// The marts of a feed, a hub and a path at a date are decided by the contents at that date alone, and the
/// period mart of a feed by its contents at each date up to it.
pub fn contents_decide()
    ensures marts { ContentsDecide }
    ensures periods { ContentsDecidePeriods }
{}

/// A row is in a period mart exactly where the feed's content, up to the date, delivers its reference list
/// from its begin on, not just before it, and until its end, or where that is open until the date.
pub fn periods_tied()
    ensures { PeriodsTied }
{}
