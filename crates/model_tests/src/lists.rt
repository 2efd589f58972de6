//! Lists of nodes by hand.

use message_list::{NodeList, new_node};
use std::alloc::Global;
use std::test::Fail;
use std::thread::join;

// At most a hundred of the items.
fn listed(alloc: Global, items: &[u32]) -> Result<NodeList<u32>, u32> {
    let mut list = NodeList::empty(alloc);
    for x in items {
        let at = list.len();
        if at < 100 {
            list.insert_at(at, new_node(alloc, *x)?);
        }
    }
    Ok(list)
}

#[test]
fn goes_to_items_and_is_cut(rt: HostRuntime) -> Result<(), Fail> {
    let mut list = listed(rt.alloc(), &[0, 1, 2, 3, 4, 5, 6])?;
    assert!(rt; list.len() == 7);
    list.seek(2);
    assert!(rt; *list.get(2) == 2 && *list.get(3) == 3 && *list.get(1) == 1);
    list.seek(3);
    let gone = list.remove_at(3);
    assert!(rt; *gone.item() == 3 && list.len() == 6);
    assert!(rt; *list.get(3) == 4 && *list.get(5) == 6 && *list.get(0) == 0);
    list.rewind();
    list.step();
    list.step();
    assert!(rt; *list.get(2) == 2 && *list.get(3) == 4);
    list.seek(5);
    list.step();
    list.step();
    assert!(rt; *list.get(5) == 6 && *list.get(1) == 1);
    list.insert_at(2, new_node(rt.alloc(), 9)?);
    assert!(rt; list.here() == 2 && *list.get(2) == 9 && *list.get(3) == 2 && *list.get(1) == 1);
    let gone = list.remove_at(2);
    assert!(rt; gone.into_item() == 9 && list.here() == 2 && *list.get(2) == 2);
    let rest = list.split_off(4);
    assert!(rt; list.len() == 4 && rest.len() == 2);
    let all: Vec<u32> = list.iter().copied().collect(rt.alloc())?;
    assert!(rt; all.as_slice() == [0, 1, 2, 4].as_slice());
    let all: Vec<u32> = rest.iter().copied().collect(rt.alloc())?;
    assert!(rt; all.as_slice() == [5, 6].as_slice());
    assert!(rt; *list.get(3) == 4 && *rest.get(1) == 6);
    let mut all = list.split_off(0);
    assert!(rt; list.len() == 0 && all.len() == 4);
    let first = all.pop_front();
    assert!(rt; first.is_some_and(|node| node.into_item() == 0) && all.len() == 3);
    Ok(())
}

#[test]
fn drops_many_nodes(rt: HostRuntime) -> Result<(), Fail> {
    let mut list = NodeList::empty(rt.alloc());
    for i in 0..20_000u32 {
        if list.len() < 20_000 {
            list.insert_at(0, new_node(rt.alloc(), i)?);
        }
    }
    assert!(rt; list.len() == 20_000);
    drop(list);
    Ok(())
}

#[test]
fn lists_and_nodes_go_to_threads(rt: HostRuntime) -> Result<(), Fail> {
    let list = listed(rt.alloc(), &[5, 6])?;
    let (here, there) = join(&rt, || list.len(), || list.iter().copied().max());
    assert!(rt; here == 2 && there == Some(6));
    let node = new_node(rt.alloc(), 7)?;
    let (here, there) = join(&rt, || *node.item(), || *node.item());
    assert!(rt; here == 7 && there == 7);
    let (gone, taken) = join(&rt, move || list.len(), move || node.into_item());
    assert!(rt; gone == 2 && taken == 7);
    Ok(())
}

#[test]
fn keeps_its_marks(rt: HostRuntime) -> Result<(), Fail> {
    let mut list = listed(rt.alloc(), &[0, 1, 2, 3, 4, 5, 6])?;
    assert!(rt; list.len() == 7);
    assert!(rt; list.reserve_marks(4));
    list.seek(2);
    list.mark(20);
    list.seek(5);
    list.mark(50);
    // with the one that has no item
    assert!(rt; list.marks() == 3);
    list.insert_at(3, new_node(rt.alloc(), 9)?);
    list.rewind();
    list.seek_mark(49, 0);
    assert!(rt; list.here() == 2 && *list.get(2) == 2);
    list.seek_mark(50, 6);
    assert!(rt; list.here() == 2);
    list.seek_mark(60, 2);
    assert!(rt; list.here() == 6 && *list.get(6) == 5);
    let first = list.remove_at(0);
    assert!(rt; first.into_item() == 0 && list.here() == 0);
    list.seek_mark(50, 0);
    assert!(rt; list.here() == 5 && *list.get(5) == 5);
    let marked = list.remove_at(1);
    assert!(rt; marked.into_item() == 2 && list.here() == 1);
    list.rewind();
    list.seek_mark(20, 0);
    assert!(rt; list.here() == 1 && *list.get(1) == 9);
    list.seek_mark(50, 0);
    assert!(rt; list.here() == 4 && *list.get(4) == 5);
    list.rewind();
    list.seek_mark(19, 0);
    assert!(rt; list.here() == 0);
    list.forget_marks();
    list.seek_mark(50, 0);
    assert!(rt; list.here() == 0 && list.marks() == 0);
    Ok(())
}
