ghost use Rattle.dv_shown.specs.ReadingExamples.{ReadingsHold};

/// What worked extracts read as.
#[tactic(auto, unfolding(crate::proofs::Literals::extracts_on_literals))]
pub fn readings_hold()
    ensures { ReadingsHold }
{}
