ghost use Rattle.std.specs.Prelude.{◌≡◌, ◌↔◌, ◌+◌, ◌-◌, ◌<◌, ◌≤◌, [], ◌∷◌, ◌++◌, Some, IfOk, IfErr, OnOk, OnErr, IsSome, length, take, slice_get, vec_capacity};
ghost use Rattle.std.specs.Option.{option_to_list};
ghost use Rattle.std.specs.List.{remove};
ghost use Rattle.std.specs.Cmp.Lexicographic.{pointwise, slice_cmp, slice_partial_cmp, lists_equiv, lists_per, lists_po, lists_total, lists_agrees, lists_ties};
ghost use Rattle.dv_text.specs.StoredLists.{stored_items};

use crate::failure::{Duplicate, Memory};
use std::alloc::{AllocFailed, Global};
use std::cmp::Ordering;
use std::marker::Model;
use std::mem::replace;

// Most lists have one item: it is held in place, without memory of its own.
#[derive(Debug, Drop)]
enum Stored<T> {
    Empty,
    One([T; 1]),
    Many(Vec<T>),
}

/// A list of items. Contracts see it as its items in order, and it keeps its allocator.
#[derive(Debug)]
pub struct List<T> {
    alloc: Global,
    stored: Stored<T>,
}

impl<T> Model for List<T> {
    ghost use Rattle.std.specs.Prelude as prelude;
    ghost use Rattle.dv_text.specs.StoredLists.{stored_items};

    ghost Value = { prelude.List T };

    ghost view = { λ xs. stored_items xs.stored };
}

impl<T: Drop> Drop for List<T> {
    fn drop(self) {
        let List {
            alloc: _,
            stored: _stored,
        } = self;
    }
}

// The items that are held.
fn held<T>(stored: &Stored<T>) -> &[T]
    ensures { result.now ≡ stored_items stored.now }
{
    match stored {
        Stored::Empty => &[],
        Stored::One(items) => &items[..],
        Stored::Many(items) => items.as_slice(),
    }
}

// Moves what is held behind items that have room for it. Takes no memory.
fn move_behind<T: Drop>(stored: Stored<T>, items: &mut Vec<T>)
    requires { length items.old.items + length (stored_items stored) ≤ vec_capacity items.old }
    ensures items { items.new.items ≡ items.old.items ++ stored_items stored }
    ensures room { vec_capacity items.old ≤ vec_capacity items.new }
{
    match stored {
        Stored::Empty => {}
        Stored::One([item]) => items.push(item).unwrap(),
        Stored::Many(mut more) => items.append(&mut more).unwrap(),
    }
}

// What is held, as a vector. For want of memory it comes back.
fn gathered<T>(alloc: Global, stored: Stored<T>) -> Result<Vec<T>, Stored<T>>
    ensures ok { IfOk result (λ items. items.items ≡ stored_items stored) }
    ensures err { IfErr result (λ back. stored_items back ≡ stored_items stored) }
{
    match stored {
        Stored::Empty => Ok(Vec::new(alloc)),
        Stored::One([item]) => match Vec::from_array(alloc, [item]) {
            Ok(items) => Ok(items),
            Err(failed) => Err(Stored::One(failed.value)),
        },
        Stored::Many(items) => Ok(items),
    }
}

// What is held in a vector, and else what is held: one item, or none. Takes no memory.
fn many<T>(stored: Stored<T>) -> Result<Vec<T>, Stored<T>>
    ensures many { IfOk result (λ items. items.items ≡ stored_items stored) }
    ensures few { IfErr result (λ few. (stored_items few ≡ stored_items stored) × (length (stored_items few) ≤ 1)) }
{
    match stored {
        Stored::Empty => Err(Stored::Empty),
        Stored::One([item]) => Err(Stored::One([item])),
        Stored::Many(items) => Ok(items),
    }
}

// Takes the last item that is held away. Takes no memory.
fn pop_held<T: Drop>(stored: &mut Stored<T>) -> Option<T>
    ensures items { stored_items stored.old ≡ stored_items stored.new ++ option_to_list result }
    ensures some { IsSome result ↔ (0 < length (stored_items stored.old)) }
    ensures rest { stored_items stored.new ≡ take (length (stored_items stored.old) - 1) (stored_items stored.old) }
{
    match replace(stored, Stored::Empty) {
        Stored::Empty => None,
        Stored::One([item]) => Some(item),
        Stored::Many(mut items) => {
            let last = items.pop();
            *stored = Stored::Many(items);
            last
        }
    }
}

// Takes the item at this place away from those that are held. Takes no memory.
fn remove_held<T: Drop>(stored: &mut Stored<T>, at: usize) -> T
    requires { at < length (stored_items stored.old) }
    ensures value { slice_get (stored_items stored.old) at ≡ Some result }
    ensures items { stored_items stored.new ≡ remove (stored_items stored.old) at }
{
    match replace(stored, Stored::Empty) {
        Stored::Empty => unreachable!(),
        Stored::One([item]) => item,
        Stored::Many(mut items) => {
            let item = items.remove(at);
            *stored = Stored::Many(items);
            item
        }
    }
}

// Puts an item behind those that are held. For want of memory they are as before, and the item is dropped.
fn push_behind<T: Drop>(alloc: Global, stored: &mut Stored<T>, item: T) -> Result<(), Memory>
    ensures ok { OnOk result (stored_items stored.new ≡ stored_items stored.old ++ item ∷ []) }
    ensures err { OnErr result (stored_items stored.new ≡ stored_items stored.old) }
{
    match stored {
        Stored::Empty => *stored = Stored::One([item]),
        Stored::One(_) => {
            let mut items = Vec::with_capacity(alloc, 4)?;
            move_behind(replace(stored, Stored::Empty), &mut items);
            items.push(item).unwrap();
            *stored = Stored::Many(items);
        }
        Stored::Many(items) => items.push(item)?,
    }
    Ok(())
}

// Puts more behind what is held. For want of memory that is as before, and the rest is dropped.
fn append_behind<T: Drop>(
    alloc: Global,
    stored: &mut Stored<T>,
    more: Stored<T>,
) -> Result<(), Memory>
    ensures ok { OnOk result (stored_items stored.new ≡ stored_items stored.old ++ stored_items more) }
    ensures err { OnErr result (stored_items stored.new ≡ stored_items stored.old) }
{
    match stored {
        Stored::Empty => *stored = more,
        Stored::One(_) => {
            let mut items = Vec::with_capacity(alloc, held(&more).len() + 1)?;
            move_behind(replace(stored, Stored::Empty), &mut items);
            move_behind(more, &mut items);
            *stored = Stored::Many(items);
        }
        Stored::Many(items) => {
            items.reserve(held(&more).len())?;
            move_behind(more, items);
        }
    }
    Ok(())
}

impl<T> List<T> {
    /// The empty list. Takes no memory.
    pub fn new(alloc: Global) -> List<T>
        ensures { result ≡ [] }
    {
        List {
            alloc,
            stored: Stored::Empty,
        }
    }

    /// The empty list, with room for so many items. Takes no memory where that is one, or none.
    pub fn with_room(alloc: Global, count: usize) -> Result<List<T>, Memory>
        ensures { IfOk result (λ made. made ≡ []) }
    {
        if count <= 1 {
            return Ok(List::new(alloc));
        }
        let items = Vec::with_capacity(alloc, count)?;
        Ok(List {
            alloc,
            stored: Stored::Many(items),
        })
    }

    /// The list of these items, in their order. Takes no memory.
    pub fn from_vec(items: Vec<T>) -> List<T>
        ensures { result ≡ items.items }
    {
        List {
            alloc: *items.allocator(),
            stored: Stored::Many(items),
        }
    }

    /// The items as a vector, in their order. Takes memory where there is one item alone, and for want of
    /// it the list comes back.
    pub fn into_vec(self) -> Result<Vec<T>, AllocFailed<List<T>>>
        ensures ok { IfOk result (λ items. items.items ≡ self) }
        ensures err { IfErr result (λ failed. failed.value ≡ self) }
    {
        let List { alloc, stored } = self;
        match gathered(alloc, stored) {
            Ok(items) => Ok(items),
            Err(stored) => Err(AllocFailed {
                value: List { alloc, stored },
            }),
        }
    }

    /// The items as a vector, where they are held in one, and else the list, which has one item or none.
    /// Takes no memory.
    pub(crate) fn into_many(self) -> Result<Vec<T>, List<T>>
        ensures many { IfOk result (λ items. items.items ≡ self) }
        ensures few { IfErr result (λ list. (list ≡ self) × (length list ≤ 1)) }
    {
        let List { alloc, stored } = self;
        match many(stored) {
            Ok(items) => Ok(items),
            Err(few) => Err(List { alloc, stored: few }),
        }
    }

    /// The allocator that the list keeps: there is one, so no clause says which. Takes no memory.
    pub fn allocator(&self) -> Global {
        self.alloc
    }

    /// The items, in their order.
    pub fn items(&self) -> &[T]
        ensures { result.now ≡ self.now }
    {
        held(&self.stored)
    }

    /// Puts an item at the end: `c` behind `a` and `b` makes `a`, `b` and `c`. For want of memory
    /// the list is as before, and the item is dropped. The first item takes no memory.
    pub fn push(&mut self, item: T) -> Result<(), Memory>
    where
        T: Drop,
        ensures ok { OnOk result (self.new ≡ self.old ++ item ∷ []) }
        ensures err { OnErr result (self.new ≡ self.old) }
    {
        push_behind(self.alloc, &mut self.stored, item)
    }

    /// Puts the items of another list at the end, in their order: `b` and `c` behind `a` make `a`,
    /// `b` and `c`. For want of memory the list is as before, and the other's items are dropped.
    pub fn append(&mut self, other: List<T>) -> Result<(), Memory>
    where
        T: Drop,
        ensures ok { OnOk result (self.new ≡ self.old ++ other) }
        ensures err { OnErr result (self.new ≡ self.old) }
    {
        let List { alloc, stored } = other;
        append_behind(alloc, &mut self.stored, stored)
    }

    /// Moves the items behind others that have room for them, in their order. Takes no memory.
    pub fn append_to(self, items: &mut Vec<T>)
    where
        T: Drop,
        requires { length items.old.items + length self ≤ vec_capacity items.old }
        ensures { items.new.items ≡ items.old.items ++ self }
    {
        let List { alloc: _, stored } = self;
        move_behind(stored, items);
    }

    /// Takes the last item away; none where there is no item. Takes no memory. Of `a`, `b` and `c`
    /// it takes `c`, and `a` and `b` stay.
    pub fn pop(&mut self) -> Option<T>
    where
        T: Drop,
        ensures items { self.old ≡ self.new ++ option_to_list result }
        ensures some { IsSome result ↔ (0 < length self.old) }
        ensures rest { self.new ≡ take (length self.old - 1) self.old }
    {
        pop_held(&mut self.stored)
    }

    /// Takes the item at this place away. Takes no memory. Place 1 of `a`, `b` and `c` is `b`, and
    /// `a` and `c` stay.
    pub fn remove(&mut self, at: usize) -> T
    where
        T: Drop,
        requires { at < length self.old }
        ensures value { slice_get self.old at ≡ Some result }
        ensures items { self.new ≡ remove self.old at }
    {
        remove_held(&mut self.stored, at)
    }
}

impl<T: Duplicate> Duplicate for List<T> {
    fn copy(&self) -> Result<List<T>, Memory> {
        let mut made = List::with_room(self.alloc, self.items().len())?;
        for item in self.items() {
            made.push(item.copy()?)?;
        }
        Ok(made)
    }
}

impl<T: PartialEq> PartialEq for List<T> {
    ghost eq = { pointwise T.eq };

    ghost laws = { lists_per T.laws };

    fn eq(&self, other: &List<T>) -> bool {
        self.items() == other.items()
    }
}

impl<T: Eq> Eq for List<T> {
    ghost laws = { lists_equiv T.Eq.laws };
}

impl<T: PartialOrd> PartialOrd for List<T> {
    ghost partial_cmp = { slice_partial_cmp T.partial_cmp };

    ghost laws = { lists_po T.PartialOrd.laws };

    fn partial_cmp(&self, other: &List<T>) -> Option<Ordering> {
        self.items().partial_cmp(&other.items())
    }
}

impl<T: Ord> Ord for List<T> {
    ghost cmp = { slice_cmp T.cmp };

    ghost total = { lists_total T.total };

    ghost matches_partial_cmp = { lists_agrees T.matches_partial_cmp };

    ghost matches_eq = { lists_ties T.cmp T.matches_eq };

    fn cmp(&self, other: &List<T>) -> Ordering {
        self.items().cmp(&other.items())
    }
}
