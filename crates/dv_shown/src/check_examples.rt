//! Worked examples of the definitions of a mapping.

ghost use Rattle.dv_shown.specs.CheckExamples.{FeedsHold, InvalidHold, LimitsHold, MappingsHold, NamesHold, OrderHolds, PathsHold, TablesHold, TextsHold};

/// The mappings of files without a fault.
pub fn mappings_hold()
    ensures { MappingsHold }
{}

/// The raw tables of mappings.
pub fn tables_hold()
    ensures { TablesHold }
{}

/// Faults of names.
pub fn names_hold()
    ensures { NamesHold }
{}

/// Faults of keys, columns and driving keys.
pub fn feeds_hold()
    ensures { FeedsHold }
{}

/// Faults of paths.
pub fn paths_hold()
    ensures { PathsHold }
{}

/// Faults of limits and of the form of names.
pub fn limits_hold()
    ensures { LimitsHold }
{}

/// Of two faults the lower number is answered.
pub fn order_holds()
    ensures { OrderHolds }
{}

/// What no mapping of a file is.
pub fn invalid_holds()
    ensures { InvalidHold }
{}

/// The printed form of faults.
pub fn texts_hold()
    ensures { TextsHold }
{}
