use dv_text::{List, Text};

/// A hub of the mapping: its name, and how many parts its business keys have.
#[derive(Debug, PartialEq, Eq, Drop)]
pub struct HubDef {
    pub name: Text,
    pub parts: u32,
}

/// A link of the mapping: its name, and the places of its hubs in declared order.
#[derive(Debug, PartialEq, Eq, Drop)]
pub struct LinkDef {
    pub name: Text,
    pub hubs: List<u32>,
}

/// What a feed delivers: business keys of a hub, or reference lists of a link, by its place.
#[derive(Clone, Copy, Debug, PartialEq, Eq)]
pub enum Parent {
    Hub(u32),
    Link(u32),
}

/// A feed of the mapping: which columns of its extracts hold the parts of each reference, tell several
/// rows of one parent apart, describe the parent, or are ignored. `driver` has the places of the driving
/// keys among the references.
#[derive(Debug, PartialEq, Eq, Drop)]
pub struct FeedDef {
    pub name: Text,
    pub source: Text,
    pub parent: Parent,
    pub keys: List<List<Text>>,
    pub sub: List<Text>,
    pub attrs: List<Text>,
    pub ignore: List<Text>,
    pub driver: List<u32>,
}

/// A path of the mapping: the places of its feeds, and for each feed and the next the hub that they share.
#[derive(Debug, PartialEq, Eq, Drop)]
pub struct PathDef {
    pub name: Text,
    pub feeds: List<u32>,
    pub via: List<u32>,
}
