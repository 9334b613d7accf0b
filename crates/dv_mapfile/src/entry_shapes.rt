// The keys of each kind of entry, in the order in which they are looked at.
ghost use Rattle.toml.specs.View.{table_view};
ghost use Rattle.dv_mapfile.specs.Meets.{Meets};
ghost use Rattle.dv_catalog.specs.Shapes as shape;

use crate::fields::{no_others, optional, required, value_at};
use crate::forms::{Column, PartCount};
use crate::shape_faults::ShapeFault;
use crate::shapes::Entry;
use dv_catalog::{FeedOutline, HubOutline, LinkOutline, ParentName, PathOutline};
use dv_text::Text;
use std::alloc::Global;
use toml::Table;

impl Entry for HubOutline {
    ghost entry_of = { shape.hub_of };

    fn read(alloc: Global, table: &Table) -> Result<HubOutline, ShapeFault> {
        let name = required::<Text>(alloc, table, "name")?;
        let parts = required::<PartCount>(alloc, table, "parts")?;
        no_others(alloc, table, &["name", "parts"])?;
        Ok(HubOutline { name, parts })
    }
}

impl Entry for LinkOutline {
    ghost entry_of = { shape.link_of };

    fn read(alloc: Global, table: &Table) -> Result<LinkOutline, ShapeFault> {
        let name = required::<Text>(alloc, table, "name")?;
        let hubs = required::<Vec<Text>>(alloc, table, "hubs")?;
        no_others(alloc, table, &["name", "hubs"])?;
        Ok(LinkOutline { name, hubs })
    }
}

const FEED_KEYS: [&str; 9] = [
    "name", "source", "hub", "link", "keys", "sub", "attrs", "ignore", "driver",
];

impl Entry for FeedOutline {
    ghost entry_of = { shape.feed_of };

    fn read(alloc: Global, table: &Table) -> Result<FeedOutline, ShapeFault> {
        let name = required::<Text>(alloc, table, "name")?;
        let source = required::<Text>(alloc, table, "source")?;
        let parent = parent(alloc, table)?;
        let keys = required::<Vec<Vec<Column>>>(alloc, table, "keys")?;
        let sub = optional::<Column>(alloc, table, "sub")?;
        let attrs = optional::<Column>(alloc, table, "attrs")?;
        let ignore = optional::<Column>(alloc, table, "ignore")?;
        let driver = optional::<Text>(alloc, table, "driver")?;
        no_others(alloc, table, &FEED_KEYS)?;
        Ok(FeedOutline {
            name,
            source,
            parent,
            keys,
            sub,
            attrs,
            ignore,
            driver,
        })
    }
}

// What a feed delivers to: exactly one of a hub and a link.
fn parent(alloc: Global, table: &Table) -> Result<ParentName, ShapeFault>
    ensures { Meets result (shape.parent_of (table_view table.now)) }
{
    let names_hub = value_at(table, "hub").is_some();
    let names_link = value_at(table, "link").is_some();
    if names_hub == names_link {
        return Err(ShapeFault::at(alloc, "hub"));
    }
    if names_hub {
        Ok(ParentName::Hub(required::<Text>(alloc, table, "hub")?))
    } else {
        Ok(ParentName::Link(required::<Text>(alloc, table, "link")?))
    }
}

impl Entry for PathOutline {
    ghost entry_of = { shape.path_of };

    fn read(alloc: Global, table: &Table) -> Result<PathOutline, ShapeFault> {
        let name = required::<Text>(alloc, table, "name")?;
        let feeds = required::<Vec<Text>>(alloc, table, "feeds")?;
        let via = required::<Vec<Text>>(alloc, table, "via")?;
        no_others(alloc, table, &["name", "feeds", "via"])?;
        Ok(PathOutline { name, feeds, via })
    }
}
