use hla_base::{List, Plain, SharedList};
use std::alloc::Global;
use std::process::Abort;

/// Two lists, and whether they are the same.
static LISTS: [(&[u32], &[u32], bool); 5] = [
    (&[7, 9], &[7, 9], true),
    (&[7], &[7], true),
    (&[7], &[], false),
    (&[], &[7], false),
    (&[], &[], true),
];

/// A shared list of these items, made of a copy of a list of them.
fn shared(rt: &impl Abort, alloc: Global, items: &[u32]) -> SharedList<u32> {
    let mut list = List::new(alloc);
    for item in items {
        list.push(*item).expect(rt, "room");
    }
    let copy = list.copy().expect(rt, "room");
    drop(list);
    SharedList::from_list(copy).expect(rt, "room")
}

/// Whether a copy of a shared list that is gone has these items.
fn is_copied(rt: &impl Abort, shared: SharedList<u32>, items: &[u32]) -> bool {
    let copy = shared.copy().expect(rt, "room");
    drop(shared);
    let has_items = copy.as_slice() == items;
    let has_length = copy.len() == items.len() && copy.is_empty() == items.is_empty();
    drop(copy);
    has_items && has_length
}

#[test]
fn shares_and_compares_items(rt: HostRuntime) {
    for (items, others, are_same) in &LISTS {
        let one = shared(&rt, rt.alloc(), items);
        let other = shared(&rt, rt.alloc(), others);
        let is_compared = (one == other) == *are_same;
        drop(other);
        let is_copied = is_copied(&rt, one, items);
        assert!(rt; is_copied, "a copy of {items:?}");
        assert!(rt; is_compared, "{items:?} beside {others:?}");
    }
}
