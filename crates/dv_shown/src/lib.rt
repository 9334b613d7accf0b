//! Worked examples of the definitions of the warehouse, as equations that the check computes. The
//! values in the doc comments at the calls of `dv_text`, `dv_stage`, `dv_records`, `dv_window` and
//! `dv_mart` are of them.
#![tactic(auto)]

ghost use Rattle.std.specs.Prelude.{◌≡◌, None};
ghost use Rattle.dv_shown.specs.Answered.{LimitsAnswered, RowsAnswered, StatesHold, WindowsAnswered};
ghost use Rattle.dv_shown.specs.Brought.{BroughtHold};
ghost use Rattle.dv_shown.specs.Collided.{CollisionsHold};
ghost use Rattle.dv_shown.specs.Contents.{ContentsHold};
ghost use Rattle.dv_shown.specs.Counts.{CountsHold, WeightsHold};
ghost use Rattle.dv_shown.specs.Damaged.{EffectsDamaged, HeadsDamaged, HubsDamaged, LeastRuleNamed, LinksDamaged, MultisDamaged, OpenDamaged, OrderOfDamage, RowsSound, SatellitesDamaged, StatusesDamaged};
ghost use Rattle.dv_shown.specs.DamagedSnapshots.{SnapshotsDamaged};
ghost use Rattle.dv_shown.specs.DamagedStores.{DamageByWeight, DamagePastLimits, HeavyRows, OrderOfStores, StoresSound};
ghost use Rattle.dv_shown.specs.Declared.{FaultsDeclared, FilesDeclared, MappingsDeclared, TablesDeclared};
ghost use Rattle.dv_shown.specs.Digested.{HashesDigested, LinkDigested, PitDigested, SatelliteDigested, StatusDigested};
ghost use Rattle.dv_shown.specs.Exercised.{ExerciseCounts};
ghost use Rattle.dv_shown.specs.Kept.{ChangesMade, SnapshotsKept, SnapshotsRead, StoresChanged, TablesKept, TurnsPlanned};
ghost use Rattle.dv_shown.specs.Limited.{LimitsKept, LimitsPassed};
ghost use Rattle.dv_shown.specs.Listed.{ManifestsRead};
ghost use Rattle.dv_shown.specs.Normals.{DatesHold, KeysHold, ListsHold, NormalsHold, NumbersHold};
ghost use Rattle.dv_shown.specs.Printed.{QueriesPrinted, RulesPrinted};
ghost use Rattle.dv_shown.specs.Read.{ExtractsRead};
ghost use Rattle.dv_shown.specs.ReadBacks.{MultiReadBackHolds, ReadBackHolds, ReadBackMeets};
ghost use Rattle.dv_shown.specs.Restored.{CellsTold, PeriodsTold, PremisesMet, PresenceHolds, RestoredHold, ValidHold};
ghost use Rattle.dv_shown.specs.Selected.{BetweenHold, HubMartsHold, PathMartsHold, PeriodMartsHold};
ghost use Rattle.dv_shown.specs.Bridged.{BridgesRead};
ghost use Rattle.dv_shown.specs.Snapped.{PitsHold, SnapshotsHold};
ghost use Rattle.dv_shown.specs.Stepped.{InitsStep, LoadsStep, ResumesStep, SnapshotsStep, StoresStand};
ghost use Rattle.dv_shown.specs.Tables.{DrivenHold, EffectsHold, HubsHold, LinksHold, MultisHold, SatellitesHold, StatusesHold, UpToHold};
ghost use Rattle.dv_shown.specs.Vaults.{VaultsHold};
ghost use Rattle.dv_shown.specs.Written.{BridgeWritten, EffectWritten, LinkWritten, MartsWritten, MultiWritten, PitWritten, StatusWritten, TablesWritten, WordsHold};

use dv_text::Digest;

pub mod catalog_laws;
pub mod check_examples;
pub mod file_examples;
pub mod path_limits;
pub mod reading_examples;

/// Normal forms of keys and attributes.
pub fn normals_hold()
    ensures { NormalsHold }
{}

/// Lists that grow and shrink.
pub fn lists_hold()
    ensures { ListsHold }
{}

/// The numbers that digests and texts begin with.
pub fn numbers_hold()
    ensures { NumbersHold }
{}

/// No digest has three bytes.
pub fn no_digest() -> Option<Digest>
    ensures { result ≡ None }
{
    Digest::of(b"abc")
}

/// Keys, rows and their order.
pub fn keys_hold()
    ensures { KeysHold }
{}

/// The dates of the examples as texts.
pub fn dates_hold()
    ensures { DatesHold }
{}

/// Contents of feeds at dates.
pub fn contents_hold()
    ensures { ContentsHold }
{}

/// What windows bring to hubs and links.
pub fn brought_hold()
    ensures { BroughtHold }
{}

/// Hubs after windows.
pub fn hubs_hold()
    ensures { HubsHold }
{}

/// Links after windows.
pub fn links_hold()
    ensures { LinksHold }
{}

/// Satellites after windows.
pub fn satellites_hold()
    ensures { SatellitesHold }
{}

/// Multi-active satellites whose rows come, go and change.
pub fn multis_hold()
    ensures { MultisHold }
{}

/// Status tables after windows.
pub fn statuses_hold()
    ensures { StatusesHold }
{}

/// Effectivity tables after windows.
pub fn effects_hold()
    ensures { EffectsHold }
{}

/// Driving keys beside attributes, and driving keys that are shared.
pub fn driven_hold()
    ensures { DrivenHold }
{}

/// The rows of tables up to dates.
pub fn up_to_hold()
    ensures { UpToHold }
{}

/// Whole vaults, and vaults while a window is loaded.
pub fn vaults_hold()
    ensures { VaultsHold }
{}

/// How many rows windows add.
pub fn counts_hold()
    ensures { CountsHold }
{}

/// What vaults weigh.
pub fn weights_hold()
    ensures { WeightsHold }
{}

/// Which keys and reference lists collide.
pub fn collisions_hold()
    ensures { CollisionsHold }
{}

/// Hub marts at dates.
pub fn hub_marts_hold()
    ensures { HubMartsHold }
{}

/// Path marts, and how large their prefixes are.
pub fn path_marts_hold()
    ensures { PathMartsHold }
{}

/// Marts before the first window and between windows.
pub fn between_hold()
    ensures { BetweenHold }
{}

/// Period marts at dates.
pub fn period_marts_hold()
    ensures { PeriodMartsHold }
{}

/// Point-in-time tables at dates.
pub fn pits_hold()
    ensures { PitsHold }
{}

/// Bridges and whole snapshots.
pub fn snapshots_hold()
    ensures { SnapshotsHold }
{}

/// Bridges by the raw tables, and the join on hash keys.
pub fn bridges_read()
    ensures { BridgesRead }
{}

/// A satellite under MD5.
pub fn satellite_digested()
    ensures { SatelliteDigested }
{}

/// A status table under MD5.
pub fn status_digested()
    ensures { StatusDigested }
{}

/// A point-in-time table under MD5.
pub fn pit_digested()
    ensures { PitDigested }
{}

/// A link under MD5.
pub fn link_digested()
    ensures { LinkDigested }
{}

/// Hash keys and hash differences under MD5.
pub fn hashes_digested()
    ensures { HashesDigested }
{}

/// What status rows say of a key at dates.
pub fn presence_holds()
    ensures { PresenceHolds }
{}

/// Which satellite row is valid for a parent at dates.
pub fn valid_hold()
    ensures { ValidHold }
{}

/// The load dates of point-in-time cells, beside those of the satellite rows that are valid.
pub fn cells_told()
    ensures { CellsTold }
{}

/// The periods that effectivity rows tell at dates, and since when one is in effect then.
pub fn periods_told()
    ensures { PeriodsTold }
{}

/// Contents that are read back from a hub's table and a status table.
pub fn restored_hold()
    ensures { RestoredHold }
{}

/// The windows of that example meet what reading back from the tables asks of windows.
pub fn premises_met()
    ensures { PremisesMet }
{}

/// Contents of feeds without a sub, read back from tables: a missing reference, attributes that go and
/// come again; and periods of a feed.
pub fn read_back_holds()
    ensures { ReadBackHolds }
{}

/// Contents of feeds with a sub, and of any feed, read back from tables.
pub fn multi_read_back_holds()
    ensures { MultiReadBackHolds }
{}

/// What reading back asks of a mapping and its windows.
pub fn read_back_meets()
    ensures { ReadBackMeets }
{}

/// What comes of windows by their extracts and load dates.
pub fn windows_answered()
    ensures { WindowsAnswered }
{}

/// What comes of windows by their rows.
pub fn rows_answered()
    ensures { RowsAnswered }
{}

/// The limits of a vault.
pub fn limits_answered()
    ensures { LimitsAnswered }
{}

/// What is past a limit, whatever else it is.
pub fn limits_passed()
    ensures { LimitsPassed }
{}

/// What keeps to a limit is decided by the rest.
pub fn limits_kept()
    ensures { LimitsKept }
{}

/// Which states of the warehouse are valid.
pub fn states_hold()
    ensures { StatesHold }
{}

/// The rules of windows as they are printed.
pub fn rules_printed()
    ensures { RulesPrinted }
{}

/// The rules of queries as they are printed.
pub fn queries_printed()
    ensures { QueriesPrinted }
{}

/// Marts as text.
pub fn marts_written()
    ensures { MartsWritten }
{}

/// Raw tables as text, under MD5.
pub fn tables_written()
    ensures { TablesWritten }
{}

/// A status table as text, under MD5.
pub fn status_written()
    ensures { StatusWritten }
{}

/// A point-in-time table as text, under MD5.
pub fn pit_written()
    ensures { PitWritten }
{}

/// A link's table as text, under MD5.
pub fn link_written()
    ensures { LinkWritten }
{}

/// A multi-active satellite's table as text, under MD5.
pub fn multi_written()
    ensures { MultiWritten }
{}

/// An effectivity table as text, under MD5.
pub fn effect_written()
    ensures { EffectWritten }
{}

/// A bridge as text, under MD5.
pub fn bridge_written()
    ensures { BridgeWritten }
{}

/// The words for marts and tables, and the text of the windows.
pub fn words_hold()
    ensures { WordsHold }
{}

/// The counts behind the windows that `exercise` makes.
pub fn exercise_counted()
    ensures { ExerciseCounts }
{}

/// Steps of loads.
pub fn loads_step()
    ensures { LoadsStep }
{}

/// Steps of completions.
pub fn resumes_step()
    ensures { ResumesStep }
{}

/// Steps of snapshots.
pub fn snapshots_step()
    ensures { SnapshotsStep }
{}

/// Steps of the storing of a mapping.
pub fn inits_step()
    ensures { InitsStep }
{}

/// What stores stand for.
pub fn stores_stand()
    ensures { StoresStand }
{}

/// Tables of stores, and kinds of rows.
pub fn tables_kept()
    ensures { TablesKept }
{}

/// The order of a store's snapshots and their tables.
pub fn snapshots_kept()
    ensures { SnapshotsKept }
{}

/// The rows of stored snapshots.
pub fn snapshots_read()
    ensures { SnapshotsRead }
{}

/// What changes make of a store.
pub fn stores_changed()
    ensures { StoresChanged }
{}

/// What a changing call of a keeper does, by its answer.
pub fn changes_made()
    ensures { ChangesMade }
{}

/// How calls of a keeper in memory go for which a failure is planned.
pub fn turns_planned()
    ensures { TurnsPlanned }
{}

/// What manifests say.
pub fn manifests_read()
    ensures { ManifestsRead }
{}

/// The first fault of mapping files with several.
pub fn faults_declared()
    ensures { FaultsDeclared }
{}

/// Which mappings are valid.
pub fn mappings_declared()
    ensures { MappingsDeclared }
{}

/// Which tables are a mapping's.
pub fn tables_declared()
    ensures { TablesDeclared }
{}

/// What whole mapping files declare.
pub fn files_declared()
    ensures { FilesDeclared }
{}

/// What extracts read as, and the room that they take.
pub fn extracts_read()
    ensures { ExtractsRead }
{}

/// Sealed windows and open ones that break a rule of form, and such that break none.
pub fn heads_damaged()
    ensures { HeadsDamaged }
{}

/// Stores whose rows break no rule of form.
pub fn rows_sound()
    ensures { RowsSound }
{}

/// Rows of hubs that break one.
pub fn hubs_damaged()
    ensures { HubsDamaged }
{}

/// Rows of links that break one.
pub fn links_damaged()
    ensures { LinksDamaged }
{}

/// Rows of satellites that break one.
pub fn satellites_damaged()
    ensures { SatellitesDamaged }
{}

/// Rows of multi-active satellites that break one.
pub fn multis_damaged()
    ensures { MultisDamaged }
{}

/// Rows of status tables that break one.
pub fn statuses_damaged()
    ensures { StatusesDamaged }
{}

/// Rows of effectivity tables that break one.
pub fn effects_damaged()
    ensures { EffectsDamaged }
{}

/// The least of several rules that a row breaks.
pub fn least_rule_named()
    ensures { LeastRuleNamed }
{}

/// Which of several rows and tables is named.
pub fn order_of_damage()
    ensures { OrderOfDamage }
{}

/// Rows while a window is open.
pub fn open_damaged()
    ensures { OpenDamaged }
{}

/// Stores that stand for states have no damage.
pub fn stores_sound()
    ensures { StoresSound }
{}

/// What of a store is looked at first.
pub fn order_of_stores()
    ensures { OrderOfStores }
{}

/// Snapshots whose dates don't ascend, are later than the last sealed window, or that weigh too much together.
pub fn snapshots_damaged()
    ensures { SnapshotsDamaged }
{}

/// What is past a limit is damage, whatever else it is.
pub fn damage_past_limits()
    ensures { DamagePastLimits }
{}

/// Rows with which the tables weigh as much as they may, and more.
pub fn heavy_rows()
    ensures { HeavyRows }
{}

/// A row with which the limit of a vault's weight is passed breaks a rule of form.
pub fn damage_by_weight()
    ensures { DamageByWeight }
{}
