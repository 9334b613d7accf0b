//! Worked examples of the definitions of the desk.
#![tactic(auto)]

ghost use Rattle.dv_desk_shown.specs.Examples.{PostedHold, RepliesHold, RoutesHold, WordsHold};

/// The words behind `serve`.
pub fn words_hold()
    ensures { WordsHold }
{}

/// What requests ask for.
pub fn routes_hold()
    ensures { RoutesHold }
{}

/// The windows that bodies are.
pub fn posted_hold()
    ensures { PostedHold }
{}

/// The replies that say answers.
pub fn replies_hold()
    ensures { RepliesHold }
{}
