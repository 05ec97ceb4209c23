use super::*;
use std::alloc::Global;
use std::test::Fail;
use std::{env, fs};

// A file `F` of so many bytes, beside an empty one.
fn files_of(alloc: Global, length: usize, failing: &[u64]) -> Result<MemFiles, Fail> {
    let mut files = Vec::new(alloc);
    files.push((String::from_str(alloc, "empty")?, Vec::new(alloc)))?;
    files.push((String::from_str(alloc, "F")?, vec![in alloc; 7u8; length]?))?;
    Ok(MemFiles::new(files, Vec::from_slice(alloc, failing)?))
}

#[test]
fn files_are_read_whole_or_refused(rt: HostRuntime) -> Result<(), Fail> {
    let none = [].as_slice();
    for (name, length, failing, limit, want) in [
        ("F", 10, none, 10, Ok(10)),
        ("F", 10, none, 11, Ok(10)),
        ("F", 10, none, 9, Err(ReadRefusal::TooLong)),
        ("F", 1, none, 0, Err(ReadRefusal::TooLong)),
        ("F", 0, none, 0, Ok(0)),
        ("empty", 10, none, 10, Ok(0)),
        ("F", 10_000, none, 10_000, Ok(10_000)),
        ("F", 10_000, none, 9_999, Err(ReadRefusal::TooLong)),
        ("G", 10, none, 10, Err(ReadRefusal::OpenFault)),
        ("F", 10, [1].as_slice(), 10, Err(ReadRefusal::OpenFault)),
        ("F", 10, [2].as_slice(), 10, Err(ReadRefusal::ReadFault)),
        ("F", 10, [3].as_slice(), 10, Err(ReadRefusal::ReadFault)),
        ("F", 10, [4].as_slice(), 10, Ok(10)),
        (
            "F",
            10_000,
            [3].as_slice(),
            10_000,
            Err(ReadRefusal::ReadFault),
        ),
        (
            "F",
            10_000,
            [4, 2].as_slice(),
            10_000,
            Err(ReadRefusal::ReadFault),
        ),
    ] {
        let mut files = files_of(rt.alloc(), length, failing)?;
        let got = read_all(rt.alloc(), &mut files, name, limit);
        let length = match got {
            Ok(bytes) => {
                assert!(rt; bytes.iter().all(|byte| *byte == 7));
                Ok(bytes.len())
            }
            Err(refusal) => Err(refusal),
        };
        assert_eq!(rt;
            length,
            want,
            "at {name} of {length:?} bytes, limit {limit}"
        );
    }
    Ok(())
}

#[test]
fn texts_are_written_whole_or_to_a_fault(rt: HostRuntime) -> Result<(), Fail> {
    let none = [].as_slice();
    for (most, room, failing, want, written) in [
        (4, 100, none, Ok(()), "report 1"),
        (100, 8, none, Ok(()), "report 1"),
        (1, 8, [9].as_slice(), Ok(()), "report 1"),
        (4, 100, [2].as_slice(), Err(WriteFault), "repo"),
        (4, 100, [1].as_slice(), Err(WriteFault), ""),
        (3, 7, none, Err(WriteFault), "report "),
        (3, 0, none, Err(WriteFault), ""),
    ] {
        let failing = Vec::from_slice(rt.alloc(), failing)?;
        let mut sink = MemSink::new(rt.alloc(), most, room, failing)?;
        let got = write_all(&mut sink, b"report 1");
        assert_eq!(rt; got, want, "at {most} of {room}");
        assert_eq!(rt; sink.written(), written.as_bytes(), "at {most} of {room}");
    }
    Ok(())
}

#[test]
fn files_of_the_system_are_read(rt: HostRuntime) -> Result<(), Fail> {
    let alloc = rt.alloc();
    let path = env::temp_dir(&rt)?.join(alloc, "dps_io_example")?;
    let name = path.to_str().ok_or("the path is no text")?;
    fs::write(&rt, name, "query trace_equiv(0,0).\n")?;
    let mut files = HostFiles::new(&rt);
    let whole = read_all(alloc, &mut files, name, 24);
    let too_long = read_all(alloc, &mut files, name, 23);
    fs::remove_file(&rt, name)?;
    let missing = read_all(alloc, &mut files, name, 24);
    let folder = read_all(alloc, &mut files, ".", 24);
    let whole = whole.ok().ok_or("the file was not read")?;
    assert_eq!(rt; whole.as_slice(), b"query trace_equiv(0,0).\n".as_slice());
    assert_eq!(rt; too_long.err(), Some(ReadRefusal::TooLong));
    assert_eq!(rt; missing.err(), Some(ReadRefusal::OpenFault));
    assert_eq!(rt; folder.err(), Some(ReadRefusal::ReadFault));
    Ok(())
}

#[test]
fn the_standard_output_is_written(rt: HostRuntime) {
    let mut sink = HostSink::new(&rt);
    assert_eq!(rt; write_all(&mut sink, b"report 1\n"), Ok(()));
}
