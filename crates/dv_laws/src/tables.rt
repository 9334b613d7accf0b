ghost use Rattle.dv_laws.specs.EffectPeriods.{EffectsTell, SinceTells};
ghost use Rattle.dv_laws.specs.Laws.{HubHolds, LinkHolds};
ghost use Rattle.dv_laws.specs.PointInTime.{MultiCellsTell, PitsTell, SatCellsTell};
ghost use Rattle.dv_laws.specs.Reconstruction.{DeliveredTells, FeedTells, KeysTell, MultiFeedTells, MultiTells, PeriodsTell, SatTells, StatusTells, VaultTells};

/// A hub's table holds the keys that windows bring: each row is of such a key, and each such key has a row.
/// A link's table so holds the reference lists.
pub fn tables_hold()
    ensures hub { HubHolds }
    ensures link { LinkHolds }
{}

/// The tables of a feed tell, at each date, of a reference list by its hash key, where no other list that the
/// windows deliver has it: the status table whether the content delivers the list, the satellite which
/// attributes, and the multi-active satellite which rows, it had in the newest extract that holds it. And of
/// a hub's feed of keys alone the hub's table and the status table tell the whole content.
pub fn tables_tell()
    ensures status { StatusTells }
    ensures delivered { DeliveredTells }
    ensures sat { SatTells }
    ensures multi { MultiTells }
    ensures keys { KeysTell }
{}

/// The tables of the vault tell everything that the windows delivered: the content of each feed at each date
/// is read back from them, of a hub's feed and of a link's, without a sub and with one, and the period mart of
/// each feed that has an effectivity table.
pub fn vault_tells()
    ensures plain { FeedTells }
    ensures multi { MultiFeedTells }
    ensures any { VaultTells }
    ensures periods { PeriodsTell }
{}

/// The load date of a point-in-time cell at a date is that of the feed's satellite row, or of its multi-active
/// satellite rows, that are valid for the parent then; there is none where no row is.
pub fn cells_tell()
    ensures sat { SatCellsTell }
    ensures multi { MultiCellsTell }
{}

/// What the raw tables of the vault say of a hub at a date is the point-in-time table of the sealed windows: a row for each
/// key that a window up to the date brings, and in it for each feed of the hub the load date of the satellite rows that are
/// valid then, and whether the feed's content has the key.
pub fn pits_tell()
    ensures { PitsTell }
{}

/// The periods that a feed's effectivity rows tell at a date are the rows of its period mart, by hash key, and
/// since when a reference list is in effect then is the begin of the run that it is in.
pub fn effects_tell()
    ensures periods { EffectsTell }
    ensures since { SinceTells }
{}
