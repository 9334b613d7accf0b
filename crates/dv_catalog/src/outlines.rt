// What a mapping file declares, before names are looked up: the entries in file order, with the names of
// hubs, links and feeds as they are written.
use dv_text::{List, Text};

#[derive(Debug, Drop)]
pub struct Outline {
    pub hubs: List<HubOutline>,
    pub links: List<LinkOutline>,
    pub feeds: List<FeedOutline>,
    pub paths: List<PathOutline>,
}

#[derive(Debug, Drop)]
pub struct HubOutline {
    pub name: Text,
    pub parts: u32,
}

#[derive(Debug, Drop)]
pub struct LinkOutline {
    pub name: Text,
    pub hubs: List<Text>,
}

/// What a feed says that it delivers: the keys of a hub or the reference lists of a link, by its name.
#[derive(Debug, Drop)]
pub enum ParentName {
    Hub(Text),
    Link(Text),
}

#[derive(Debug, Drop)]
pub struct FeedOutline {
    pub name: Text,
    pub source: Text,
    pub parent: ParentName,
    pub keys: List<List<Text>>,
    pub sub: List<Text>,
    pub attrs: List<Text>,
    pub ignore: List<Text>,
    pub driver: List<Text>,
}

#[derive(Debug, Drop)]
pub struct PathOutline {
    pub name: Text,
    pub feeds: List<Text>,
    pub via: List<Text>,
}
