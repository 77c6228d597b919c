use crate::{LinkFault, Tree};
use al_values::Cant;
use std::alloc::Global;
use std::process::Abort;
use std::test::Fail;

// One call, and what it answers.
#[derive(Clone, Copy)]
enum Call<'a> {
    Link(u32, u32),
    Refused(u32, u32, LinkFault),
    Unlink(u32, u32, bool),
    Family(u32, &'a [u32]),
    Children(u32, &'a [u32]),
}

fn check(rt: &impl Abort, alloc: Global, tree: &mut Tree, call: &Call) -> Result<(), Fail> {
    match call {
        Call::Link(child, parent) => assert!(rt; tree.link(alloc, *child, *parent).is_ok()),
        Call::Refused(child, parent, why) => match tree.link(alloc, *child, *parent) {
            Err(Cant::Why(fault)) => assert_eq!(rt; fault, *why),
            _ => assert!(rt; false),
        },
        Call::Unlink(child, parent, there) => {
            assert_eq!(rt; tree.unlink(*child, *parent), *there);
        }
        Call::Family(table, family) => {
            assert_eq!(rt; tree.family(alloc, *table)?.as_slice(), *family);
        }
        Call::Children(table, children) => {
            assert_eq!(rt; tree.children(*table).as_slice(), *children);
        }
    }
    Ok(())
}

fn check_all(rt: &impl Abort, alloc: Global, calls: &[Call]) -> Result<(), Fail> {
    let mut tree = Tree::new(alloc);
    for call in calls {
        check(rt, alloc, &mut tree, call)?;
    }
    Ok(())
}

// Two parents with a parent in common; numbers that don't ascend with the links; a link that ends.
#[test]
fn diamond(rt: HostRuntime) -> Result<(), Fail> {
    let calls = [
        Call::Family(7, &[7]),
        Call::Children(7, &[]),
        Call::Link(9, 7),
        Call::Link(3, 7),
        Call::Link(5, 9),
        Call::Link(5, 3),
        Call::Family(7, &[7, 3, 5, 9]),
        Call::Children(7, &[3, 9]),
        Call::Unlink(5, 7, false),
        Call::Unlink(5, 9, true),
        Call::Family(7, &[7, 3, 5, 9]),
        Call::Unlink(5, 3, true),
        Call::Unlink(5, 3, false),
        Call::Family(7, &[7, 3, 9]),
        Call::Family(5, &[5]),
    ];
    check_all(&rt, rt.alloc(), &calls)
}

// A circle over three tables, and one over one; a link that is there already.
#[test]
fn circles(rt: HostRuntime) -> Result<(), Fail> {
    let calls = [
        Call::Refused(1, 1, LinkFault::Circle),
        Call::Link(2, 1),
        Call::Link(3, 2),
        Call::Refused(1, 3, LinkFault::Circle),
        Call::Refused(1, 2, LinkFault::Circle),
        Call::Refused(3, 2, LinkFault::Twice),
        Call::Link(3, 1),
        Call::Unlink(3, 2, true),
        Call::Link(2, 3),
        Call::Family(1, &[1, 2, 3]),
        Call::Family(3, &[3, 2]),
    ];
    check_all(&rt, rt.alloc(), &calls)
}

// 500 tables, each a child of the one above it; noted links may close a circle, and the family is what it was.
#[test]
fn family_of_500(rt: HostRuntime) -> Result<(), Fail> {
    let mut tree = Tree::new(rt.alloc());
    for table in 1..500 {
        tree.note(rt.alloc(), 500 - table, 500 - table + 1)?;
    }
    assert_eq!(rt; tree.family(rt.alloc(), 500)?.len(), 500);
    tree.note(rt.alloc(), 500, 1)?;
    let family = tree.family(rt.alloc(), 250)?;
    assert_eq!(rt; family.len(), 500);
    assert_eq!(rt; family.as_slice()[2], 2);
    Ok(())
}
