// What a request is answered with, and the reply that says it.
ghost use Rattle.std.specs.Prelude.{◌≡◌, IfOk};
ghost use Rattle.dv_desk.specs.Answers as spec;

use crate::bodies::{answer_body, loaded_body, text_body};
use crate::routes::Allowed;
use dv_catalog::{Rule, rule_text};
use dv_given::damage_text;
use dv_http::{Reply, ReplyKind, WireError};
use dv_print::QueryRule;
use dv_records::{Damage, LoadAnswer};
use dv_restore::StoreFault;
use dv_text::{Memory, Text};
use std::alloc::Global;

/// What a request is answered with.
#[derive(Drop)]
pub enum Answer {
    /// A window was loaded, of so many rows.
    Loaded { rows: u64 },
    /// A window repeats a sealed one.
    Repeated,
    /// The text of the windows' heads.
    Heads(Text),
    /// The text of a mart or a table.
    Rows(Text),
    /// No head is there, or the body is no JSON.
    BadRequest,
    /// There is no such route, mart, table or hub, or no snapshot at the date.
    NotFound,
    /// The route has no such method, but these.
    NotAllowed { methods: Allowed },
    /// A window breaks a rule.
    Broken(Rule),
    /// The body's end is not told by a length.
    NoLength,
    /// The body is longer than is taken.
    TooLong,
    /// What is asked for breaks a rule.
    BadQuery(QueryRule),
    /// A row of the store breaks a rule of form.
    Damaged(Damage),
    /// A call of the keeper failed.
    Keeper,
    /// Memory ran out.
    Memory,
}

impl From<LoadAnswer> for Answer {
    ghost use Rattle.std.specs.Prelude.{◌≡◌};
    ghost use Rattle.dv_desk.specs.Turns.{answer_of};

    ghost from_gives = { λ came answer. answer ≡ answer_of came };

    fn from(came: LoadAnswer) -> Answer {
        match came {
            LoadAnswer::Loaded { rows } => Answer::Loaded { rows },
            LoadAnswer::Repeated => Answer::Repeated,
            LoadAnswer::Refused(rule) => Answer::Broken(rule),
            LoadAnswer::Damaged(damage) => Answer::Damaged(damage),
            LoadAnswer::KeeperFault => Answer::Keeper,
            LoadAnswer::Memory => Answer::Memory,
        }
    }
}

/// The answer where a stale office could not be refreshed.
pub(crate) fn unrefreshed(fault: StoreFault) -> Answer
    ensures { result ≡ spec.unrefreshed fault }
{
    match fault {
        StoreFault::Damaged(damage) => Answer::Damaged(damage),
        StoreFault::KeeperFault => Answer::Keeper,
        StoreFault::Memory => Answer::Memory,
    }
}

// What is answered where no request could be taken; none where nothing is.
fn wire_answer(error: WireError) -> Option<Answer>
    ensures { result ≡ spec.wire_answer error }
{
    match error {
        WireError::Head => Some(Answer::BadRequest),
        WireError::NoLength => Some(Answer::NoLength),
        WireError::BodyTooLong => Some(Answer::TooLong),
        WireError::Cut | WireError::Spent | WireError::ReadFault | WireError::Memory => None,
    }
}

/// The reply where no request could be taken; none where nothing is written.
pub(crate) fn refusal(alloc: Global, error: WireError) -> Result<Option<Reply>, Memory>
    ensures { IfOk result (λ reply. reply ≡ spec.refusal error) }
{
    match wire_answer(error) {
        Some(answer) => Ok(Some(answer.into_reply(alloc, true)?)),
        None => Ok(None),
    }
}

// The methods, as a reply names them.
fn methods_text(methods: Allowed) -> &'static [u8]
    ensures { result.now ≡ spec.methods_text methods }
{
    match methods {
        Allowed::Get => b"GET",
        Allowed::GetPost => b"GET, POST",
    }
}

// The status of a window that breaks a rule.
fn status_of_rule(rule: &Rule) -> u16
    ensures { result ≡ spec.status_of_rule rule.now }
{
    match rule {
        Rule::Late { .. } | Rule::OpenOther { .. } | Rule::Differs { .. } => 409,
        Rule::Collision { .. } => 409,
        Rule::TooLong { .. } => 413,
        _ => 422,
    }
}

impl Answer {
    ghost use Rattle.std.specs.Prelude.{◌≡◌, IfOk};
    ghost use Rattle.dv_desk.specs.Answers as spec;

    fn status(&self) -> u16
        ensures { result ≡ spec.status_of self.now }
    {
        match self {
            Answer::Loaded { .. } | Answer::Repeated | Answer::Heads(_) | Answer::Rows(_) => 200,
            Answer::BadRequest => 400,
            Answer::NotFound => 404,
            Answer::NotAllowed { .. } => 405,
            Answer::Broken(rule) => status_of_rule(rule),
            Answer::NoLength => 411,
            Answer::TooLong => 413,
            Answer::BadQuery(_) => 422,
            Answer::Damaged(_) => 500,
            Answer::Keeper => 503,
            Answer::Memory => 507,
        }
    }

    fn kind(&self) -> ReplyKind
        ensures { result ≡ spec.kind_of self.now }
    {
        match self {
            Answer::Rows(_) => ReplyKind::Csv,
            _ => ReplyKind::Json,
        }
    }

    // The methods of the route, where the method of the request is none of them.
    fn allow(&self, alloc: Global) -> Result<Option<Text>, Memory>
        ensures { IfOk result (λ methods. methods ≡ spec.allow_of self.now) }
    {
        match self {
            Answer::NotAllowed { methods } => Ok(Some(Text::of(alloc, methods_text(*methods))?)),
            _ => Ok(None),
        }
    }

    // The body; the text of a mart or a table is not copied.
    fn into_body(self, alloc: Global) -> Result<Text, Memory>
        ensures { IfOk result (λ body. body ≡ spec.body_of self) }
    {
        match self {
            Answer::Loaded { rows } => loaded_body(alloc, rows),
            Answer::Repeated => answer_body(alloc, "Repeated"),
            Answer::Heads(text) | Answer::Rows(text) => Ok(text),
            Answer::BadRequest => answer_body(alloc, "BadRequest"),
            Answer::NotFound => answer_body(alloc, "NotFound"),
            Answer::NotAllowed { .. } => answer_body(alloc, "Method"),
            Answer::Broken(rule) => text_body(alloc, "Refused", rule_text(alloc, &rule)?.bytes()),
            Answer::NoLength => answer_body(alloc, "NoLength"),
            Answer::TooLong => answer_body(alloc, "TooLong"),
            Answer::BadQuery(rule) => text_body(alloc, "Refused", rule.printed(alloc)?.bytes()),
            Answer::Damaged(damage) => {
                text_body(alloc, "Damaged", damage_text(alloc, &damage)?.bytes())
            }
            Answer::Keeper => answer_body(alloc, "Keeper"),
            Answer::Memory => answer_body(alloc, "Memory"),
        }
    }

    /// The reply that says this; the connection ends after it where it is the last one.
    pub(crate) fn into_reply(self, alloc: Global, last: bool) -> Result<Reply, Memory>
        ensures { IfOk result (λ reply. reply ≡ spec.reply_of self last) }
    {
        Ok(Reply {
            status: self.status(),
            kind: self.kind(),
            allow: self.allow(alloc)?,
            last,
            body: self.into_body(alloc)?,
        })
    }
}
