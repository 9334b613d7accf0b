//! Worked examples of the definitions of requests and replies, and their laws.
#![tactic(auto)]

ghost use Rattle.dv_http_shown.specs.Examples.{FieldsHold, HeadsHold, RepliesHold, RequestsHold, TargetsHold};
ghost use Rattle.dv_http_shown.specs.Laws.{OneRequest, TakenNotRefused};

/// The parts of targets.
pub fn targets_hold()
    ensures { TargetsHold }
{}

/// What the fields of heads say.
pub fn fields_hold()
    ensures { FieldsHold }
{}

/// The bytes of heads, and what they say.
pub fn heads_hold()
    ensures { HeadsHold }
{}

/// What is taken from the bytes of connections.
pub fn requests_hold()
    ensures { RequestsHold }
{}

/// The bytes of replies.
pub fn replies_hold()
    ensures { RepliesHold }
{}

/// The same bytes give one request, and leave the same bytes.
pub fn one_request()
    ensures { OneRequest }
{}

/// Where a request is taken, none of the causes that stand in the bytes holds.
pub fn taken_not_refused()
    ensures { TakenNotRefused }
{}
