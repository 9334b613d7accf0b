ghost use Rattle.std.specs.Prelude.{◌≡◌, ℕ, IfOk, Some};
ghost use Rattle.dv_crew.specs.declared.orders.Order.{Order};
ghost use Rattle.dv_app.specs.LoadOptions.{loads_by};
ghost use Rattle.dv_app.specs.Words as spec;
ghost use Rattle.dv_app.specs.Words.{LoadsAs, OnKeeper, command_of, office_command};

use crate::load_options::LoadOptions;
use crate::option_values::load_options;
use crate::options::{Found, has_option, parted};
use dv_given::number_in;
use dv_text::{Memory, Text};
use std::alloc::Global;

const MOST_ITEMS: u32 = 50_000;

/// What `try` is asked for: a mart or a table, at a date, over the windows of manifests, of which
/// there is one at least, and how these are loaded.
#[derive(Clone, Copy)]
pub(crate) struct TryWords<'a> {
    pub(crate) what: &'a Text,
    pub(crate) date: &'a Text,
    pub(crate) manifests: &'a [Text],
    pub(crate) options: LoadOptions,
}

/// A table of a stored snapshot, by the name of its hub or its path.
#[derive(Clone, Copy)]
pub(crate) enum StoredTable<'a> {
    /// The point-in-time table of a hub.
    Pit { hub: &'a Text },
    /// The bridge of a path.
    Bridge { path: &'a Text },
}

/// A command over the office of the vault that is kept.
#[derive(Clone, Copy)]
pub(crate) enum OfficeCommand<'a> {
    /// The window of a manifest is loaded.
    Load {
        manifest: &'a Text,
        options: LoadOptions,
    },
    /// The open window is completed.
    Resume,
    /// The text of a mart, at a date.
    Mart {
        what: &'a Text,
        date: &'a Text,
    },
    /// The text of a raw table with all its rows.
    Table {
        name: &'a Text,
    },
    /// The text of the windows.
    Windows,
    /// A snapshot is stored, at a date.
    Snapshot {
        date: &'a Text,
    },
    /// The text of a table of the snapshot that is stored at a date.
    Stored {
        table: StoredTable<'a>,
        date: &'a Text,
    },
}

/// A command on the vault that is kept.
#[derive(Clone, Copy)]
pub(crate) enum KeptCommand<'a> {
    /// The mapping's file is stored.
    Init,
    /// The office of what is kept is opened first.
    OnOffice(OfficeCommand<'a>),
}

/// What the words of the command line ask for.
#[derive(Clone, Copy)]
pub(crate) enum Command<'a> {
    /// Windows are loaded, and nothing is kept.
    Try(TryWords<'a>),
    /// Windows of so many items are made and loaded, and nothing is kept.
    Exercise { count: u32, options: LoadOptions },
    OnKeeper(KeptCommand<'a>),
}

/// A first word, and what the words behind it say.
#[derive(Drop)]
pub(crate) struct Parts {
    pub first: Text,
    pub behind: Found,
}

/// The first word, and what the words behind it say; none where there is no first word, or the others break the rule
/// of options.
pub(crate) fn parts_of(alloc: Global, words: &[String]) -> Result<Option<Parts>, Memory>
    ensures { IfOk result (λ parts. spec.asked_of words.now ≡ spec.command_in parts) }
{
    match words {
        [] => Ok(None),
        [first, ..] => match parted(alloc, &words[1..])? {
            Some(behind) => Ok(Some(Parts {
                first: Text::of(alloc, first.as_bytes())?,
                behind,
            })),
            None => Ok(None),
        },
    }
}

// A command over the office of what is kept.
fn on_office(command: OfficeCommand<'_>) -> Option<Command<'_>>
    ensures asked { command_of result ≡ OnKeeper (office_command command.entry) }
    ensures whole { result ≡ Some (Command.OnKeeper (KeptCommand.OnOffice command.entry)) }
{
    Some(Command::OnKeeper(KeptCommand::OnOffice(command)))
}

// A command that takes no words.
fn bare_command<'a>(word: &[u8]) -> Option<Command<'a>>
    ensures asked { command_of result ≡ spec.bare word.now }
    ensures loads { (by : ℕ × Order) → LoadsAs by result }
{
    if word == b"init".as_slice() {
        Some(Command::OnKeeper(KeptCommand::Init))
    } else if word == b"resume".as_slice() {
        on_office(OfficeCommand::Resume)
    } else if word == b"windows".as_slice() {
        on_office(OfficeCommand::Windows)
    } else {
        None
    }
}

// The command `exercise`, where a word says a number of items.
fn exercise<'a>(word: &[u8], options: LoadOptions) -> Option<Command<'a>>
    ensures asked { command_of result ≡ spec.exercise word.now }
    ensures loads { LoadsAs (loads_by options) result }
{
    let count = number_in(MOST_ITEMS, word)?;
    Some(Command::Exercise { count, options })
}

// A command that takes one word.
fn command_with_one<'a>(word: &[u8], name: &'a Text, options: LoadOptions) -> Option<Command<'a>>
    ensures asked { command_of result ≡ spec.with_one word.now name.now }
    ensures loads { LoadsAs (loads_by options) result }
{
    if word == b"load".as_slice() {
        let manifest = name;
        on_office(OfficeCommand::Load { manifest, options })
    } else if word == b"exercise".as_slice() {
        exercise(name.bytes(), options)
    } else if word == b"table".as_slice() {
        on_office(OfficeCommand::Table { name })
    } else if word == b"snapshot".as_slice() {
        on_office(OfficeCommand::Snapshot { date: name })
    } else {
        None
    }
}

// A command that takes two words.
fn command_with_two<'a>(word: &[u8], what: &'a Text, date: &'a Text) -> Option<Command<'a>>
    ensures asked { command_of result ≡ spec.with_two word.now what.now date.now }
    ensures loads { (by : ℕ × Order) → LoadsAs by result }
{
    if word == b"mart".as_slice() {
        on_office(OfficeCommand::Mart { what, date })
    } else if word == b"pit".as_slice() {
        let table = StoredTable::Pit { hub: what };
        on_office(OfficeCommand::Stored { table, date })
    } else if word == b"bridge".as_slice() {
        let table = StoredTable::Bridge { path: what };
        on_office(OfficeCommand::Stored { table, date })
    } else {
        None
    }
}

// A command that takes three words or more.
fn command_with_more<'a>(word: &[u8], asked: &TryWords<'a>) -> Option<Command<'a>>
    ensures asked { command_of result ≡ spec.with_more word.now asked.now.what.now asked.now.date.now asked.now.manifests.now }
    ensures loads { LoadsAs (loads_by asked.now.options) result }
{
    if word == b"try".as_slice() {
        Some(Command::Try(*asked))
    } else {
        None
    }
}

// What a first word and positionals ask for; none where they are no command.
fn command_with<'a>(
    word: &[u8],
    positionals: &'a [Text],
    options: LoadOptions,
) -> Option<Command<'a>>
    ensures asked { command_of result ≡ spec.command word.now positionals.now }
    ensures loads { LoadsAs (loads_by options) result }
{
    match positionals {
        [] => bare_command(word),
        [name] => command_with_one(word, name, options),
        [what, date] => command_with_two(word, what, date),
        [what, date, ..] => command_with_more(
            word,
            &TryWords {
                what,
                date,
                manifests: &positionals[2..],
                options,
            },
        ),
    }
}

// Whether a command has options.
fn has_options(command: &Command<'_>) -> bool
    ensures { result ≡ spec.has_options (spec.parsed_command command.now) }
{
    match command {
        Command::Try(_) | Command::Exercise { .. } => true,
        Command::OnKeeper(KeptCommand::OnOffice(OfficeCommand::Load { .. })) => true,
        Command::OnKeeper(_) => false,
    }
}

/// What a first word and the words behind it ask for; none where they are no command.
pub(crate) fn asked_command(parts: &Parts) -> Option<Command<'_>>
    ensures asked { command_of result ≡ spec.command_behind parts.now.first parts.now.behind }
    ensures loads { spec.IsLoadedBy parts.now.behind result }
{
    let options = load_options(&parts.behind)?;
    let command = command_with(
        parts.first.bytes(),
        parts.behind.positionals.items(),
        options,
    )?;
    if has_option(&parts.behind) && !has_options(&command) {
        return None;
    }
    Some(command)
}
