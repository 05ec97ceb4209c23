//! Two workers on a book, and what its calls answer.
use crate::{Book, Claim, Final, Post, Posted, are_shared};
use dps_branch::{Side, StopKind};
use dps_path::{NoMemory, Path};
use std::alloc::Global;
use std::process::Abort;
use std::test::Fail;

const LEFT: StopKind = StopKind::Attack(Side::Left);

/// The path of these numbers.
fn path_of(alloc: Global, numbers: &[u32]) -> Result<Path, NoMemory> {
    let mut path = Path::root(alloc);
    for number in numbers {
        path = path.child(*number)?;
    }
    Ok(path)
}

/// A claim of the ticket as the path of these numbers, by a worker that is ready.
fn claim(
    rt: &impl Abort,
    alloc: Global,
    book: &mut Book,
    worker: u32,
    ticket: u64,
    numbers: &[u32],
) -> Result<Claim, Fail> {
    let path = path_of(alloc, numbers)?;
    if book.ready(worker) {
        return Ok(book.claim(worker, ticket, &path));
    }
    assert!(rt; false, "the worker is not ready");
    Ok(Claim::Dead)
}

/// A post by a worker that owes it at the path of these numbers.
fn post(
    rt: &impl Abort,
    alloc: Global,
    book: &mut Book,
    worker: u32,
    numbers: &[u32],
    found: Post,
) -> Result<Posted, Fail> {
    let path = path_of(alloc, numbers)?;
    assert!(rt; book.owes(worker, &path));
    Ok(book.post(worker, found)?)
}

/// A book whose root has two kids, of which worker 1 holds the first and worker 0 the second.
fn two_kids(rt: &impl Abort, alloc: Global) -> Result<Book, Fail> {
    let mut book = Book::new(alloc, 2)?;
    assert_eq!(rt; claim(rt, alloc, &mut book, 0, 0, &[0])?, Claim::Dead);
    assert_eq!(rt; claim(rt, alloc, &mut book, 0, 0, &[])?, Claim::Live);
    assert_eq!(rt; claim(rt, alloc, &mut book, 1, 0, &[])?, Claim::Dead);
    assert_eq!(rt;
        post(rt, alloc, &mut book, 0, &[], Post::Kids(2))?,
        Posted::Kids(1)
    );
    assert_eq!(rt; claim(rt, alloc, &mut book, 1, 1, &[0])?, Claim::Live);
    assert_eq!(rt; claim(rt, alloc, &mut book, 0, 2, &[1])?, Claim::Live);
    Ok(book)
}

#[test]
fn a_stop_drops_what_is_after_it(rt: HostRuntime) -> Result<(), Fail> {
    let alloc = rt.alloc();
    let mut book = two_kids(&rt, alloc)?;
    assert_eq!(rt;
        post(&rt, alloc, &mut book, 1, &[0], Post::Stop(LEFT))?,
        Posted::Best
    );
    assert_eq!(rt;
        post(&rt, alloc, &mut book, 0, &[1], Post::Kids(3))?,
        Posted::Dropped
    );
    assert_eq!(rt; book.finished(), Some(Final { best: Some(1) }));
    assert_eq!(rt; book.best(), Some((1, LEFT)));
    assert_eq!(rt; book.claims(0), 2);
    assert_eq!(rt; book.claims(1), 1);
    assert_eq!(rt; book.claims(2), 0);
    match book.path(2)? {
        Some(path) => assert!(rt; path.equals(&path_of(alloc, &[1])?)),
        None => assert!(rt; false),
    }
    assert!(rt; book.path(3)?.is_none());
    Ok(())
}

#[test]
fn a_stop_leaves_what_is_before_it(rt: HostRuntime) -> Result<(), Fail> {
    let alloc = rt.alloc();
    let mut book = two_kids(&rt, alloc)?;
    let spent = Post::Stop(StopKind::Spent);
    assert_eq!(rt; post(&rt, alloc, &mut book, 0, &[1], spent)?, Posted::Best);
    assert_eq!(rt; book.finished(), None);
    assert_eq!(rt;
        post(&rt, alloc, &mut book, 1, &[0], Post::Kids(0))?,
        Posted::Kids(3)
    );
    assert_eq!(rt; book.finished(), Some(Final { best: Some(2) }));
    book.facts_stand();
    are_shared();
    book.halt(7);
    assert!(rt; book.halted());
    assert_eq!(rt; book.finished(), None);
    assert_eq!(rt; claim(&rt, alloc, &mut book, 0, 2, &[1])?, Claim::Halted);
    Ok(())
}
