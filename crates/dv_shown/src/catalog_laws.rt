//! Laws of the definitions of a mapping and of the rules of an extract's records.

ghost use Rattle.dv_shown.specs.CatalogLaws.{LeastRecordRefused, LeastTestAnswers, ValidWhereFaultless};

/// The mapping of an outline is valid exactly where no check refuses the outline.
pub fn valid_where_faultless()
    ensures { ValidWhereFaultless }
{}

/// The rule that records break is that of the least record that breaks one, and of that record the first.
pub fn least_refused()
    ensures record { LeastRecordRefused }
    ensures test { LeastTestAnswers }
{}
