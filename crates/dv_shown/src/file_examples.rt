ghost use Rattle.dv_shown.specs.MappingExamples.{EntryFaultsHold, FirstFaultsHold, OutlinesHold, TextsHold};

/// What mapping files declare, in worked examples.
pub fn outlines_hold()
    ensures { OutlinesHold }
{}

/// Files that are no mapping's document, in worked examples.
pub fn texts_hold()
    ensures { TextsHold }
{}

/// The places of faults in mapping files, in worked examples.
pub fn shapes_hold()
    ensures entry { EntryFaultsHold }
    ensures first { FirstFaultsHold }
{}
