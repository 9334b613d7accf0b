ghost use Rattle.dv_laws.specs.FeedDeltas.{SatDeltaIsBatch, StatusDeltaIsBatch};
ghost use Rattle.dv_laws.specs.HubDeltas.{HubApartIsFree, HubClashCollides, HubDeltaIsBatch};
ghost use Rattle.dv_laws.specs.LinkDeltas.{LinkApartIsFree, LinkClashCollides, LinkDeltaIsBatch};

/// Over the table of a hub after windows that don't collide in it: a later window adds its batch, if it
/// doesn't collide with them. The least pair of different keys with one hash key among those that are brought
/// and stored is the windows' collision in the hub, and where there is no such pair they have none.
pub fn hub_delta_is_batch()
    ensures batch { HubDeltaIsBatch }
    ensures collides { HubClashCollides }
    ensures free { HubApartIsFree }
{}

/// Over the table of a link after windows that don't collide in it, with the keys that the hubs name: a later
/// window adds its batch, if it doesn't collide with them. The least pair of different reference lists with
/// one hash key among those that are brought and stored is the windows' collision in the link, and where
/// there is no such pair they have none.
pub fn link_delta_is_batch()
    ensures batch { LinkDeltaIsBatch }
    ensures collides { LinkClashCollides }
    ensures free { LinkApartIsFree }
{}

/// Over the satellite of a feed's older extracts, what the newest one adds to it row by row is its batch, where
/// no two reference lists that they deliver have one hash key.
pub fn sat_delta_is_batch()
    ensures { SatDeltaIsBatch }
{}

/// Over the status table of a feed's older extracts, what the newest one adds to it is its batch, where no two
/// reference lists that they deliver have one hash key.
pub fn status_delta_is_batch()
    ensures { StatusDeltaIsBatch }
{}
