//! Tables of paths: their order, their prefixes and their texts.
use crate::{NoMemory, Path, are_shared, order_laws, read_path};
use std::alloc::Global;
use std::process::Abort;
use std::test::Fail;

/// The path of these numbers.
fn path_of(alloc: Global, numbers: &[u32]) -> Result<Path, NoMemory> {
    let mut path = Path::root(alloc);
    for number in numbers {
        path = path.child(*number)?;
    }
    Ok(path)
}

/// Two paths, whether the one is before the other, and whether it begins the other.
const ORDERS: [(&[u32], &[u32], bool, bool); 8] = [
    (&[], &[], false, true),
    (&[], &[0], true, true),
    (&[0], &[], false, false),
    (&[0, 9], &[1], true, false),
    (&[1], &[0, 9], false, false),
    (&[2, 1], &[2, 1, 0], true, true),
    (&[9], &[10], true, false),
    (&[4294967295], &[4294967295], false, true),
];

#[test]
fn paths_are_in_order(rt: HostRuntime) -> Result<(), Fail> {
    are_shared();
    order_laws();
    for (one, other, first, begins) in &ORDERS {
        let one = path_of(rt.alloc(), one)?;
        let other = path_of(rt.alloc(), other)?;
        assert_eq!(rt; one.copy()?.before(&other), *first);
        assert_eq!(rt; one.is_prefix(&other), *begins);
        assert_eq!(rt;
            one.equals(&other),
            one.is_prefix(&other) && other.is_prefix(&one)
        );
    }
    Ok(())
}

/// Texts, and the numbers of their paths.
const TEXTS: [(&str, &[u32]); 4] = [
    ("/", &[]),
    ("/0", &[0]),
    ("/0/1/10/200", &[0, 1, 10, 200]),
    ("/4294967295/0", &[4294967295, 0]),
];

/// What is no text of a path.
const NO_TEXTS: [&str; 9] = [
    "",
    "0",
    "//",
    "/0/",
    "/00",
    "/01",
    "/4294967296",
    "/-1",
    "/0 ",
];

fn has_text(rt: &impl Abort, alloc: Global, text: &str, numbers: &[u32]) -> Result<(), Fail> {
    let path = path_of(alloc, numbers)?;
    let written = path.text(alloc)?;
    assert_eq!(rt; written.as_str(), text);
    match read_path(alloc, text.as_bytes())? {
        Some(read) => assert!(rt; read.equals(&path), "{text}"),
        None => assert!(rt; false, "{text}"),
    }
    Ok(())
}

#[test]
fn paths_are_read_from_their_texts(rt: HostRuntime) -> Result<(), Fail> {
    for (text, numbers) in &TEXTS {
        has_text(&rt, rt.alloc(), text, numbers)?;
    }
    for text in &NO_TEXTS {
        assert!(rt; read_path(rt.alloc(), text.as_bytes())?.is_none(), "{text}");
    }
    Ok(())
}
