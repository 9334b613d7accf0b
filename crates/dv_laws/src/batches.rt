ghost use Rattle.dv_laws.specs.Laws.{BatchesAscend, HeaderCloses};
ghost use Rattle.dv_laws.specs.Ties.{EffectTied, HubTied, LinkTied, MultiTied, SatTied, StatusTied};

/// A list is a batch exactly where it ascends strictly, has only such rows, and has each of them: for a hub
/// the row of each of the window's new keys, for a link that of each new reference list, for a satellite that
/// of each changed parent, for a multi-active one all rows of each, for a status table the row of each parent
/// that appeared or vanished, and for an effectivity satellite that of each run that begins or ends.
pub fn batches_tied()
    ensures hub { HubTied }
    ensures link { LinkTied }
    ensures sat { SatTied }
    ensures multi { MultiTied }
    ensures status { StatusTied }
    ensures effect { EffectTied }
{}

/// The rows of each of the six batches ascend strictly.
pub fn batches_ascend()
    ensures { BatchesAscend }
{}

/// An extract that is a header alone closes what was present: it gives each parent that was present a
/// status row `D`, ends each run by a row with the run's begin, and adds nothing else.
pub fn header_closes()
    ensures { HeaderCloses }
{}
