// Lists, of which few items are held in place.
use dv_text::{Duplicate, List, Memory};
use std::alloc::Global;

const FEW: &[&[u32]] = &[&[], &[0], &[0, 1], &[0, 1, 2]];

fn list(alloc: Global, items: &[u32]) -> Result<List<u32>, Memory> {
    let mut made = List::new(alloc);
    for item in items {
        made.push(*item)?;
    }
    Ok(made)
}

fn with_two_more(alloc: Global, items: &[u32]) -> Result<List<u32>, Memory> {
    let mut made = list(alloc, items)?;
    made.append(list(alloc, &[0, 1])?)?;
    Ok(made)
}

fn grows_and_shrinks(alloc: Global, items: &[u32]) -> Result<bool, Memory> {
    let before = list(alloc, items)?;
    let mut made = with_two_more(alloc, items)?;
    Ok(
        made.items().len() == items.len() + 2
            && made.pop() == Some(1)
            && made.pop() == Some(0)
            && made == before,
    )
}

fn appended(alloc: Global, list: List<u32>) -> Result<Vec<u32>, Memory> {
    let mut behind = Vec::with_capacity(alloc, list.items().len())?;
    list.append_to(&mut behind);
    Ok(behind)
}

fn is_left_whole(alloc: Global, items: &[u32]) -> Result<bool, Memory> {
    let list = list(alloc, items)?;
    let copy = list.copy()?.into_vec()?;
    let behind = appended(alloc, list)?;
    Ok(copy.as_slice() == items && behind.as_slice() == items)
}

#[test]
fn lists_of_few_items_grow_and_shrink_and_are_left_whole(rt: HostRuntime) {
    for items in FEW {
        assert!(rt; grows_and_shrinks(rt.alloc(), items) == Ok(true));
        assert!(rt; is_left_whole(rt.alloc(), items) == Ok(true));
    }
}
