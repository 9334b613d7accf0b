ghost use Rattle.dv_laws.specs.Laws.{PartialGrows, RowsAddUp, RowsGrow, TableGrows, VaultGrows, VaultHolds, WeightGrows};

/// The vault has of each table of the mapping its rows after the windows, and of any other none.
pub fn vault_holds()
    ensures { VaultHolds }
{}

/// A window adds its batches to the vault: each is put at the end of the rows of its table, so that the vault
/// of windows and one more is the vault of the windows followed, table by table, by the batch of the one; it
/// weighs, and has rows, by what the batches do more; and while the window is loaded the tables go from the
/// one vault to the other.
pub fn vault_grows()
    ensures rows { RowsAddUp }
    ensures table { TableGrows }
    ensures vault { VaultGrows }
    ensures weight { WeightGrows }
    ensures count { RowsGrow }
    ensures partial { PartialGrows }
{}
