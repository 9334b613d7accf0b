// Pairs of different reference lists with one hash key.
ghost use Rattle.std.specs.Prelude.{◌≡◌, ◌++◌, IfOk, OnOk, map};
ghost use Rattle.std.specs.List.{filter_map, list_any};
ghost use Rattle.std.specs.Option.{option_to_list};
ghost use Rattle.dv_hub_link.specs.HashedLists.{told};
ghost use Rattle.dv_hub_link.specs.HeldLists.{standing};
ghost use Rattle.dv_hub_link.specs.Rivalries as spec;

use crate::copies::copied;
use crate::hashed_lists::LentList;
use crate::holds_lists::{HoldsLists, Standing};
use dv_text::{Exact, Key, List, Memory, sorted_distinct};
use std::alloc::Global;
use std::cmp::Ordering;

/// Two different lists with one hash key, the lesser one first. Pairs are ordered by their first lists, and
/// then by their second ones.
#[derive(Debug, PartialEq, Eq, PartialOrd, Ord, Drop)]
pub(crate) struct Rivals {
    pub(crate) first: List<Key>,
    pub(crate) second: List<Key>,
}

impl Exact for Rivals {
    ghost use Rattle.dv_hub_link.specs.HashedOrder.{rivals_cmp-IsAntisymmetric};

    ghost tells_apart = { rivals_cmp-IsAntisymmetric };
}

// The lists are copied only here, since a pair is nearly never there.
fn pair(alloc: Global, lesser: &[Key], greater: &[Key]) -> Result<Rivals, Memory>
    ensures { IfOk result (λ made. made ≡ record { first = lesser.now; second = greater.now }) }
{
    let first = copied(alloc, lesser)?;
    let second = copied(alloc, greater)?;
    Ok(Rivals { first, second })
}

// The pair of two lists; none where they are equal.
fn rivals_of(alloc: Global, a: &[Key], b: &[Key]) -> Result<Option<Rivals>, Memory>
    ensures { IfOk result (λ made. made ≡ spec.rivals_of a.now b.now) }
{
    match a.cmp(&b) {
        Ordering::Less => Ok(Some(pair(alloc, a, b)?)),
        Ordering::Equal => Ok(None),
        Ordering::Greater => Ok(Some(pair(alloc, b, a)?)),
    }
}

// The pair of two lists with one hash key; none where they have different ones, or are equal.
fn neighbours(alloc: Global, last: &LentList, next: &LentList) -> Result<Option<Rivals>, Memory>
    ensures { IfOk result (λ made. made ≡ spec.neighbours (told last.now) (told next.now)) }
{
    if last.digest != next.digest {
        return Ok(None);
    }
    let made = rivals_of(alloc, last.refs, next.refs)?;
    Ok(made)
}

// The pair of a held list, where there is one, and another.
fn rivals_with(
    alloc: Global,
    other: Option<List<Key>>,
    refs: &[Key],
) -> Result<Option<Rivals>, Memory>
    ensures { IfOk result (λ made. made ≡ spec.rivals_with other refs.now) }
{
    let Some(other) = other else {
        return Ok(None);
    };
    let made = rivals_of(alloc, other.items(), refs)?;
    Ok(made)
}

// The pair of a list and the held one with its hash key; none where there is none, or it is the same.
fn held_rival<T: HoldsLists>(
    alloc: Global,
    list: &LentList,
    table: &T,
) -> Result<Option<Rivals>, Memory>
    ensures { IfOk result (λ made. made ≡ spec.held_rival (T.held table.now) (told list.now)) }
{
    let other = table.list(alloc, &list.digest)?;
    let made = rivals_with(alloc, other, list.refs)?;
    Ok(made)
}

fn add(rivals: &mut Vec<Rivals>, made: Option<Rivals>) -> Result<(), Memory>
    ensures { OnOk result (rivals.new.items ≡ rivals.old.items ++ option_to_list made) }
{
    if let Some(pair) = made {
        rivals.push(pair)?;
    }
    Ok(())
}

// Puts the pairs of lists and held ones at the end of a list.
fn add_held<T: HoldsLists>(
    alloc: Global,
    rivals: &mut Vec<Rivals>,
    lists: &[LentList],
    table: &T,
) -> Result<(), Memory>
    ensures { OnOk result (rivals.new.items ≡ rivals.old.items ++ filter_map (λ list. spec.held_rival (T.held table.now) (told list)) lists.now) }
{
    for list in lists {
        add(rivals, held_rival(alloc, list, table)?)?;
    }
    Ok(())
}

// Puts the pairs of lists and the next ones at the end of a list.
fn add_neighbours(alloc: Global, rivals: &mut Vec<Rivals>, lists: &[LentList]) -> Result<(), Memory>
    ensures { OnOk result (rivals.new.items ≡ rivals.old.items ++ spec.all_neighbours (map told lists.now)) }
{
    let Some((first, rest)) = lists.split_first() else {
        return Ok(());
    };
    let mut last = first;
    for next in rest {
        add(rivals, neighbours(alloc, last, next)?)?;
        last = next;
    }
    Ok(())
}

// The pairs of lists and next ones, and of lists and held ones.
fn all_rivals<T: HoldsLists>(
    alloc: Global,
    lists: &[LentList],
    table: &T,
) -> Result<Vec<Rivals>, Memory>
    ensures { IfOk result (λ made. made.items ≡ spec.all_rivals (T.held table.now) (map told lists.now)) }
{
    let mut rivals = Vec::new(alloc);
    add_neighbours(alloc, &mut rivals, lists)?;
    add_held(alloc, &mut rivals, lists, table)?;
    Ok(rivals)
}

// The least of them; none where there is none.
fn least_rivals<T: HoldsLists>(
    alloc: Global,
    lists: &[LentList],
    table: &T,
) -> Result<Option<Rivals>, Memory>
    ensures { IfOk result (λ made. made ≡ spec.least_rivals (T.held table.now) (map told lists.now)) }
{
    let rivals = all_rivals(alloc, lists, table)?;
    let sorted = sorted_distinct(rivals).into_vec()?;
    Ok(sorted.into_iter().next())
}

// Whether two lists are different and have one hash key.
fn clash(last: &LentList, next: &LentList) -> bool
    ensures { result ≡ spec.clash (told last.now) (told next.now) }
{
    last.digest == next.digest && last.refs != next.refs
}

// Whether a list and the next one clash.
fn has_clash(lists: &[LentList]) -> bool
    ensures { result ≡ spec.has_clash (map told lists.now) }
{
    let Some((first, rest)) = lists.split_first() else {
        return false;
    };
    let mut last = first;
    for next in rest {
        if clash(last, next) {
            return true;
        }
        last = next;
    }
    false
}

fn is_other(standing: &Standing) -> bool
    ensures { result ≡ spec.is_other standing.now }
{
    matches!(standing, Standing::Other)
}

// Whether one stands beside another list with its hash key.
fn has_other(standings: &[Standing]) -> bool
    ensures { result ≡ list_any spec.is_other standings.now }
{
    standings.iter().any(is_other)
}

/// The least pair of lists and next ones, and of lists and held ones, which stand to the lists as is told; none
/// where there is none. Nearly always there is none, which the standings tell with no further look-up.
pub(crate) fn rivals_among<T: HoldsLists>(
    alloc: Global,
    lists: &[LentList],
    standings: &[Standing],
    table: &T,
) -> Result<Option<Rivals>, Memory>
    requires { standings.now ≡ map (λ list. standing (T.held table.now) (told list)) lists.now }
    ensures { IfOk result (λ made. made ≡ spec.least_rivals (T.held table.now) (map told lists.now)) }
{
    if !has_clash(lists) && !has_other(standings) {
        return Ok(None);
    }
    let made = least_rivals(alloc, lists, table)?;
    Ok(made)
}
