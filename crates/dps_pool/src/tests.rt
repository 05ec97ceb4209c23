//! The first stops of trees that are tables of looks.
ghost use Rattle.std.specs.Prelude.{◌<◌, ◌^◌, length};

use crate::table::TableNode;
use crate::{Found, explore_one};
use dps_branch::{Side, StopKind};
use std::alloc::Global;
use std::process::Abort;
use std::test::Fail;

const LEFT: Option<StopKind> = Some(StopKind::Attack(Side::Left));

const SPENT: Option<StopKind> = Some(StopKind::Spent);

/// Tables, how many levels are below the root, and the text and kind of the first stop.
const TABLES: [(&[Option<StopKind>], u32, &str, Option<StopKind>); 6] = [
    (&[], 3, "", None),
    (&[LEFT], 3, "/", LEFT),
    (&[None, None, SPENT], 1, "/1", SPENT),
    (&[None, None, LEFT, None, SPENT], 2, "/0/1", SPENT),
    (&[None, SPENT, LEFT, LEFT, LEFT], 2, "/0", SPENT),
    (&[None, None, None, LEFT], 1, "", None),
];

/// The text and the kind of the first stop, or of none.
fn first(
    rt: &impl Abort,
    alloc: Global,
    table: &[Option<StopKind>],
    levels: u32,
    text: &str,
    kind: Option<StopKind>,
) -> Result<(), Fail>
    requires { length table.now < 2 ^ 60 }
{
    match explore_one(alloc, TableNode::root(alloc, table, levels))? {
        Found::None => assert!(rt; kind.is_none()),
        Found::Stop { path, kind: found } => {
            assert_eq!(rt; path.text(alloc)?.as_str(), text);
            assert_eq!(rt; Some(found), kind);
        }
    }
    Ok(())
}

#[test]
fn first_stops_are_found(rt: HostRuntime) -> Result<(), Fail> {
    for (table, levels, text, kind) in &TABLES {
        assert!(rt; table.len() < 100);
        first(&rt, rt.alloc(), table, *levels, text, *kind)?;
    }
    Ok(())
}
