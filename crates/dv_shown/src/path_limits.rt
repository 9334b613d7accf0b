//! A path's mart and bridge at the limit of their rows.

ghost use Rattle.dv_shown.specs.PathLimits.{PathLimitsHold};

/// A path's mart and bridge have as many rows as they may, and not one more.
pub fn path_limits_hold()
    ensures { PathLimitsHold }
{}
