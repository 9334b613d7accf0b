//! The ways along the feeds of a path: of each feed one row of its link, joined on the hash keys of the hubs that
//! neighbours share. A way is the number of a shorter one, and a link more.
ghost use Rattle.std.specs.Prelude.{◌≡◌, ◌+◌, ◌<◌, ◌≤◌, ◌∷◌, ◌++◌, [], IfOk, IsErrOf, OnOk, get_or, length, map, option_map, slice_get};
ghost use Rattle.std.specs.List.Sorted.{IsSortedByKey};
ghost use Rattle.dv_bridge.specs.Ways as spec;
ghost use Rattle.dv_records.specs.Batches.{digest_cmp};
ghost use Rattle.dv_records.specs.Limits.{most_path_rows};

use crate::fault::BridgeFault;
use crate::joins::{check_room, push_all};
use crate::keyed_links::{KeyedLink, by_key, key_at, met_links};
use crate::lent_links::{PathLink, put};
use dv_records::BridgeRow;
use dv_text::{List, Memory};
use std::alloc::Global;
use std::marker::Model;
use std::mem::replace;

// The end of a way: the number of the way before it, and the link that it takes.
#[derive(Drop)]
struct Joint<'b, 'a> {
    before: u32,
    link: &'b PathLink<'a>,
}

/// The ways along the first feeds of a path, at most 1,000,000. Contracts see the links of each.
#[derive(Drop)]
pub struct Ways<'b, 'a> {
    alloc: Global,
    // The ends of the ways along fewer feeds, from one on.
    earlier: Vec<List<Joint<'b, 'a>>>,
    last: List<Joint<'b, 'a>>,
}

impl<'b, 'a> Model for Ways<'b, 'a> {
    ghost use Rattle.std.specs.Prelude.{◌≤◌, List, length};
    ghost use Rattle.dv_bridge.specs.KeyedRows.{KeyedRow};
    ghost use Rattle.dv_bridge.specs.Ways.{ways_by, ways_of};
    ghost use Rattle.dv_records.specs.Limits.{most_path_rows};

    ghost Value = { List (List KeyedRow) };

    ghost view = { λ ways. ways_by (ways_of ways.earlier.items) ways.last };

    ghost invariant = { λ ways. length ways.last ≤ most_path_rows };
}

// Puts the end of a way with each of these links at the end.
fn push_ends<'b, 'a>(
    ends: &mut List<Joint<'b, 'a>>,
    before: u32,
    links: &[KeyedLink<'b, 'a>],
) -> Result<(), Memory>
    ensures { OnOk result (map spec.end_of ends.new ≡ map spec.end_of ends.old ++ map (λ one. (before, one.link.now)) links.now) }
{
    for one in links {
        let link = one.link;
        ends.push(Joint { before, link })?;
    }
    Ok(())
}

// The ends of the ways that go on with links whose key they have at this place, as many as there may be.
fn ends_behind<'b, 'a>(
    alloc: Global,
    ends: &[Joint<'b, 'a>],
    place: u32,
    links: &[KeyedLink<'b, 'a>],
) -> Result<List<Joint<'b, 'a>>, BridgeFault>
    requires sorted { IsSortedByKey (λ one. one.key) digest_cmp links.now }
    requires few { length ends.now ≤ most_path_rows }
    ensures ok { IfOk result (λ made. map spec.end_of made ≡ spec.ends_from 0 (map (spec.links_met place links.now) ends.now)) }
    ensures few { IfOk result (λ made. length made ≤ most_path_rows) }
    ensures too_large { IsErrOf result BridgeFault.TooLarge → most_path_rows < length (spec.ends_from 0 (map (spec.links_met place links.now) ends.now)) }
{
    let mut made = List::new(alloc);
    for (number, end) in ends.iter().enumerate() {
        let key = key_at(end.link.row().hubs.items(), place);
        let met = met_links(links, key);
        check_room(made.items().len(), met.len())?;
        push_ends(&mut made, number as u32, met)?;
    }
    Ok(made)
}

// The end of a way with a number; none where there is no such way. Takes no memory.
fn end_at<'c, 'b, 'a>(ends: &'c [Joint<'b, 'a>], number: u32) -> Option<&'c Joint<'b, 'a>>
    ensures { option_map (λ end. end.now) result ≡ slice_get ends.now number }
{
    ends.get(number as usize)
}

// Puts the links of a way at the end, by the ends of the ways along so many feeds.
fn put_links<'b, 'a>(
    steps: &[List<Joint<'b, 'a>>],
    number: u32,
    links: &mut Vec<&'b PathLink<'a>>,
) -> Result<(), Memory>
    ensures { OnOk result (map (λ link. link.now) links.new.items ≡ map (λ link. link.now) links.old.items ++ get_or (spec.ways_of steps.now) number []) }
{
    if steps.is_empty() {
        return Ok(());
    }
    let last = steps.len() - 1;
    let Some(end) = end_at(steps[last].items(), number) else {
        return Ok(());
    };
    put_links(&steps[..last], end.before, links)?;
    put(links, end.link)?;
    Ok(())
}

// The end of a way along one feed for each link.
fn first_ends<'b, 'a>(
    alloc: Global,
    links: &'b [PathLink<'a>],
) -> Result<List<Joint<'b, 'a>>, Memory>
    ensures { IfOk result (λ ends. map spec.end_of ends ≡ map (λ link. (0, link)) links.now) }
{
    let mut ends = List::with_room(alloc, links.len())?;
    for link in links {
        ends.push(Joint { before: 0, link })?;
    }
    Ok(ends)
}

// The row of a bridge over links.
fn row_over(alloc: Global, links: &[&PathLink<'_>]) -> Result<BridgeRow, Memory>
    ensures { IfOk result (λ row. row ≡ spec.row_along (map (λ link. link.now) links.now)) }
{
    let mut digests = List::with_room(alloc, links.len())?;
    let mut hubs = List::with_room(alloc, 2 * links.len())?;
    for link in links {
        digests.push(link.row().digest)?;
        push_all(&mut hubs, link.row().hubs.items())?;
    }
    Ok(BridgeRow {
        links: digests,
        hubs,
    })
}

impl<'b, 'a> Ways<'b, 'a> {
    /// A way along one feed for each of its links. `TooLarge` comes exactly where there are more than 1,000,000.
    pub fn first(alloc: Global, links: &'b [PathLink<'a>]) -> Result<Ways<'b, 'a>, BridgeFault>
        ensures ok { IfOk result (λ ways. ways ≡ map (λ link. link ∷ []) links.now) }
        ensures few { IfOk result (λ ways. length ways ≤ most_path_rows) }
        ensures too_large { IsErrOf result BridgeFault.TooLarge → most_path_rows < length links.now }
    {
        check_room(0, links.len())?;
        let last = first_ends(alloc, links)?;
        Ok(Ways {
            alloc,
            earlier: Vec::new(alloc),
            last,
        })
    }

    /// Goes on along one feed more: each way with each of the feed's links that has at the place `right` of its hubs
    /// the hash key that the way's last link has at the place `left` of its own. `TooLarge` comes exactly where there
    /// are more than 1,000,000 such ways, and before any more are made.
    pub fn go_on(
        &mut self,
        left: u32,
        right: u32,
        links: &'b [PathLink<'a>],
    ) -> Result<(), BridgeFault>
        ensures ok { OnOk result (self.new ≡ spec.longer_ways left right links.now self.old) }
        ensures few { OnOk result (length self.new ≤ most_path_rows) }
        ensures too_large { IsErrOf result BridgeFault.TooLarge → most_path_rows < length (spec.longer_ways left right links.now self.old) }
    {
        let keyed = by_key(self.alloc, links, right)?;
        let ends = ends_behind(self.alloc, self.last.items(), left, &keyed)?;
        let before = replace(&mut self.last, ends);
        put(&mut self.earlier, before)?;
        Ok(())
    }

    /// How many ways there are. Takes no memory.
    pub fn count(&self) -> usize
        ensures { result ≡ length self.now }
    {
        self.last.items().len()
    }

    /// Puts the links of the way with this number at the end; none where there is no such way.
    pub fn put_way(&self, number: usize, links: &mut Vec<&'b PathLink<'a>>) -> Result<(), Memory>
        ensures { OnOk result (map (λ link. link.now) links.new.items ≡ map (λ link. link.now) links.old.items ++ get_or self.now number []) }
    {
        let Some(end) = self.last.items().get(number) else {
            return Ok(());
        };
        put_links(&self.earlier, end.before, links)?;
        links.push(end.link)?;
        Ok(())
    }

    /// The row of a bridge for each way, in their order.
    pub fn bridge_rows(&self) -> Result<List<BridgeRow>, Memory>
        ensures { IfOk result (λ rows. rows ≡ map spec.row_along self.now) }
    {
        let mut rows = List::with_room(self.alloc, self.count())?;
        let mut links = Vec::new(self.alloc);
        for number in 0..self.count() {
            links.clear();
            self.put_way(number, &mut links)?;
            rows.push(row_over(self.alloc, &links)?)?;
        }
        Ok(rows)
    }
}
