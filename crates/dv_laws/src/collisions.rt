ghost use Rattle.dv_laws.specs.Ties.{CollisionFree, CollisionTied, NoneCollide};

/// A hub or a link has no collision exactly where no two of its keys or reference lists have one hash key,
/// the missing one among them; a pair is its collision exactly where it is the least pair of different ones
/// with one hash key; and windows have none exactly where no hub and no link has one.
pub fn collisions_tied()
    ensures free { CollisionFree }
    ensures least { CollisionTied }
    ensures none { NoneCollide }
{}
