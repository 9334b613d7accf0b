//! Mapping files and manifests: the bytes of a TOML document to what they declare; and where a document, which may be JSON
//! as well, has not the shape that it has to have.
#![tactic(auto)]

mod documents;
mod entry_shapes;
mod fields;
mod forms;
mod manifests;
mod mapping_files;
mod readers;
mod shape_faults;
mod shapes;
mod tops;

pub use manifests::{Manifest, ManifestExtract};
pub use readers::read_catalog;
pub use shape_faults::{ShapeFault, placed};
