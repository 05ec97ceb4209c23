//! Tables of events, and whether the machine has each step.
use crate::{Event, Post, State, are_shared, facts_stay};
use dps_branch::{Side, StopKind};
use std::alloc::Global;
use std::process::Abort;
use std::test::Fail;

const LEFT: Post = Post::Stop(StopKind::Attack(Side::Left));

/// Tries the events on a state of two workers.
fn tried(rt: &impl Abort, alloc: Global, events: &[(Event, bool)]) -> Result<(), Fail> {
    let mut state = State::new(alloc, 2)?;
    for (event, wanted) in events {
        let done = state.step(event)?;
        assert_eq!(rt; done, *wanted, "{event:?}");
    }
    Ok(())
}

#[test]
fn a_stop_drops_what_is_open_after_it(rt: HostRuntime) -> Result<(), Fail> {
    are_shared();
    facts_stay();
    let events = [
        (
            Event::Claim {
                worker: 0,
                ticket: 0,
            },
            true,
        ),
        (
            Event::Push {
                worker: 0,
                ticket: 0,
            },
            false,
        ),
        (
            Event::Post {
                worker: 1,
                ticket: 0,
                result: Post::Kids(2),
            },
            false,
        ),
        (
            Event::Post {
                worker: 0,
                ticket: 0,
                result: Post::Kids(2),
            },
            true,
        ),
        (
            Event::Push {
                worker: 0,
                ticket: 1,
            },
            true,
        ),
        (
            Event::Push {
                worker: 0,
                ticket: 2,
            },
            true,
        ),
        (
            Event::Pop {
                worker: 0,
                ticket: 2,
            },
            false,
        ),
        (
            Event::Steal {
                worker: 0,
                ticket: 1,
            },
            false,
        ),
        (
            Event::Steal {
                worker: 1,
                ticket: 1,
            },
            true,
        ),
        (
            Event::Claim {
                worker: 1,
                ticket: 1,
            },
            true,
        ),
        (
            Event::Pop {
                worker: 0,
                ticket: 2,
            },
            true,
        ),
        (
            Event::Claim {
                worker: 0,
                ticket: 2,
            },
            true,
        ),
        (
            Event::Post {
                worker: 1,
                ticket: 1,
                result: LEFT,
            },
            true,
        ),
        (
            Event::Claim {
                worker: 0,
                ticket: 2,
            },
            false,
        ),
        (
            Event::Post {
                worker: 0,
                ticket: 2,
                result: Post::Kids(3),
            },
            true,
        ),
        (
            Event::Claim {
                worker: 0,
                ticket: 3,
            },
            false,
        ),
    ];
    tried(&rt, rt.alloc(), &events)
}

#[test]
fn a_stop_leaves_what_is_open_before_it(rt: HostRuntime) -> Result<(), Fail> {
    let events = [
        (
            Event::Claim {
                worker: 0,
                ticket: 0,
            },
            true,
        ),
        (
            Event::Post {
                worker: 0,
                ticket: 0,
                result: Post::Kids(2),
            },
            true,
        ),
        (
            Event::Claim {
                worker: 0,
                ticket: 1,
            },
            true,
        ),
        (
            Event::Claim {
                worker: 0,
                ticket: 2,
            },
            true,
        ),
        (
            Event::Post {
                worker: 0,
                ticket: 2,
                result: Post::Stop(StopKind::Spent),
            },
            true,
        ),
        (
            Event::Post {
                worker: 0,
                ticket: 1,
                result: Post::Kids(1),
            },
            true,
        ),
        (
            Event::Halt {
                worker: 7,
                ticket: 7,
            },
            true,
        ),
        (
            Event::Claim {
                worker: 0,
                ticket: 3,
            },
            true,
        ),
        (
            Event::Claim {
                worker: 0,
                ticket: 3,
            },
            true,
        ),
        (
            Event::Post {
                worker: 0,
                ticket: 3,
                result: Post::Kids(0),
            },
            false,
        ),
    ];
    tried(&rt, rt.alloc(), &events)
}
