//! The mapping as a value: hubs, links, feeds and paths as declared, with their look-ups and raw tables; the
//! rules that a window may break, as they are printed; and the definitions of what a mapping file and an
//! extract say.
#![tactic(auto)]

mod catalogs;
mod entries;
mod limits;
pub mod lookups;
mod map_error;
mod map_texts;
mod outlines;
mod printing;
mod rule_texts;
mod rules;
mod sources;
mod table_lists;
mod tables;
mod windows;

pub use catalogs::Catalog;
pub use entries::{FeedDef, HubDef, LinkDef, Parent, PathDef};
pub use limits::{MOST_EXTRACT_BYTES, MOST_MANIFEST_BYTES, MOST_MAPPING_BYTES, MOST_WINDOW_BYTES};
pub use map_error::MapError;
pub use outlines::{FeedOutline, HubOutline, LinkOutline, Outline, ParentName, PathOutline};
pub use printing::{add_field, printed};
pub use rule_texts::rule_text;
pub use rules::Rule;
pub use sources::record_source;
pub use tables::TableId;
pub use windows::{ExtractIn, WindowIn};
