// The lists from end to end.
use crate::{Lists, Watch};
use sr_arena::Cref;
use sr_base::Lit;
use std::alloc::Global;
use std::test::Fail;

/// Lists with keys 0 and 1, and watches of the clauses 1 to 12 under key 0.
fn twelve(alloc: Global) -> Result<Lists, Fail> {
    let mut lists = Lists::new(alloc);
    lists.grow(2)?;
    lists.reserve(12)?;
    for index in 1..13 {
        if let Some(at) = Cref::from_index(index) {
            if lists.left() > 0 && lists.keys() > 0 {
                lists.push(
                    0,
                    Watch {
                        blocker: Lit::from_code(2),
                        at,
                    },
                );
            }
        }
    }
    Ok(lists)
}

fn keep(lists: &mut Lists, watch: Watch) {
    if lists.left() > 0 && lists.is_walked() {
        lists.keep(watch);
    }
}

fn begin(lists: &mut Lists, key: usize) {
    if !lists.is_walked() && key < lists.keys() {
        lists.begin(key);
    }
}

fn end(lists: &mut Lists) {
    if lists.is_walked() {
        lists.end();
    }
}

/// Keeps the watches of even clauses among the first six of the list of key 0, and ends the walk there.
fn keep_even(lists: &mut Lists) {
    begin(lists, 0);
    for _ in 0..6 {
        let Some(watch) = lists.next() else {
            break;
        };
        if watch.at.index() % 2 == 0 {
            keep(lists, watch);
        }
    }
    end(lists);
}

/// How many watches stand in the list of a key, which becomes empty.
fn drain(lists: &mut Lists, key: usize) -> usize {
    begin(lists, key);
    for count in 0..20 {
        if lists.next().is_none() {
            end(lists);
            return count;
        }
    }
    end(lists);
    20
}

#[test]
fn a_walk_that_stops(rt: HostRuntime) -> Result<(), Fail> {
    let mut lists = twelve(rt.alloc())?;
    assert_eq!(rt; lists.keys(), 2);
    assert_eq!(rt; lists.left(), 0);
    keep_even(&mut lists);
    assert!(rt; !lists.is_walked());
    assert_eq!(rt; lists.left(), 3);
    assert_eq!(rt; drain(&mut lists, 1), 0);
    assert_eq!(rt; drain(&mut lists, 0), 9);
    assert_eq!(rt; lists.left(), 12);
    Ok(())
}
