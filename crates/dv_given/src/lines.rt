// The lines that commands write to standard error, and the mapping file's name: each fixed part
// stands here once.
ghost use Rattle.std.specs.Prelude.{◌≡◌, IfOk};
ghost use Rattle.dv_outside.specs.Ends.{line_of};
ghost use Rattle.dv_given.specs.Lines as spec;

use dv_records::Damage;
use dv_text::{Memory, Text};
use std::alloc::Global;

/// The name of the mapping's file.
pub const MAPPING_NAME: &[u8] = b"mapping.toml";

/// The line where memory ran out.
pub const MEMORY: &[u8] = b"vaultdesk: out of memory\n";

/// The line where the words are no command.
pub const USAGE: &[u8] = b"vaultdesk: usage\n";

/// What stands before the name of a file that is absent.
pub const ABSENT: &[u8] = b"vaultdesk: absent ";

/// What stands before the name of a file that could not be read.
pub const READ_FAULT: &[u8] = b"vaultdesk: read fault ";

/// What stands before the fault of a mapping.
pub const MAPPING_REFUSED: &[u8] = b"vaultdesk: mapping ";

/// The line where no mapping is stored.
pub const MAPPING_NONE: &[u8] = b"vaultdesk: mapping none\n";

/// The line where another mapping is stored than the file's.
pub const MAPPING_DIFFERS: &[u8] = b"vaultdesk: mapping differs\n";

/// The program's name, and behind it what a query breaks.
pub const PROGRAM: &[u8] = b"vaultdesk: ";

/// The line where the keeper failed.
pub const KEEPER_FAULT: &[u8] = b"vaultdesk: keeper fault\n";

/// What stands before the place of a damage.
pub const DAMAGED: &[u8] = b"vaultdesk: damaged ";

/// A line: its front, a text behind it, and a line feed.
pub fn line_text(alloc: Global, front: &[u8], text: &[u8]) -> Result<Text, Memory>
    ensures { IfOk result (λ line. line ≡ line_of front.now text.now) }
{
    let mut line = Vec::from_slice(alloc, front)?;
    line.extend_from_slice(text)?;
    line.push(b'\n')?;
    Text::from_vec(line)
}

/// The place of a damage, and the rule of form that it breaks: the table, the row, and the rule's
/// number.
pub fn damage_text(alloc: Global, damage: &Damage) -> Result<Text, Memory>
    ensures { IfOk result (λ text. text ≡ spec.damage_text damage.now) }
{
    let row = damage.row.to_string(alloc)?;
    let rule = damage.rule.to_string(alloc)?;
    let mut text = Vec::from_slice(alloc, damage.table.bytes())?;
    text.push(b' ')?;
    text.extend_from_slice(row.as_bytes())?;
    text.extend_from_slice(b" F")?;
    text.extend_from_slice(rule.as_bytes())?;
    Text::from_vec(text)
}
