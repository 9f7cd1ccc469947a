use outside::{DiskFiles, FileError, Files, MemFiles, MemSink, OutSink, Sink, VecSink};
use std::alloc::{AllocError, Global};
use std::fs;
use std::process::{self, Abort};
use std::test::Fail;

// What a reader gives for each of some names, limits and answers.
fn check_reads<F: Files>(
    rt: &impl Abort,
    alloc: Global,
    files: &mut F,
    reads: &[(&str, usize, Result<&[u8], FileError>)],
) {
    for (name, most, want) in reads {
        match (files.read(alloc, name, *most), want) {
            (Ok(bytes), Ok(want)) => assert_eq!(rt; bytes.as_slice(), *want, "of {name}"),
            (Err(error), Err(want)) => assert_eq!(rt; error, *want, "of {name}"),
            _ => assert!(rt; false, "at {name}"),
        }
    }
}

// More bytes than one call of the system gives.
static LONG: [u8; 10_000] = [b'x'; 10_000];

#[test]
fn reads_from_the_disk(rt: HostRuntime) -> Result<(), Fail> {
    let id = process::id(rt.process());
    let name = format!(in rt.alloc(); "edge_tests_{id}.tmp")?;
    fs::write(&rt, name.as_str(), LONG.as_slice())?;
    let reads = [
        (name.as_str(), 9_000, Ok(&LONG[..9_000])),
        (name.as_str(), 20_000, Ok(LONG.as_slice())),
        (name.as_str(), 0, Ok(&LONG[..0])),
        ("edge_tests_missing.tmp", 1, Err(FileError::Failed)),
    ];
    check_reads(&rt, rt.alloc(), &mut DiskFiles::new(&rt), &reads);
    fs::remove_file(&rt, name.as_str())?;
    Ok(())
}

fn some_files(alloc: Global) -> Result<Vec<(String, Vec<u8>)>, AllocError> {
    let mut files = Vec::new(alloc);
    for (name, text) in [("a", "first"), ("b", "other"), ("a", "second")] {
        let name = String::from_str(alloc, name)?;
        files.push((name, text.as_bytes().to_vec(alloc)?))?;
    }
    Ok(files)
}

// Of two files with one name the first counts, and read number 1 fails.
#[test]
fn reads_from_memory(rt: HostRuntime) -> Result<(), AllocError> {
    let alloc = rt.alloc();
    let mut files = MemFiles::new(some_files(alloc)?, vec![in alloc; 1]?);
    let reads = [
        ("a", 3, Ok(b"fir".as_slice())),
        ("a", 3, Err(FileError::Failed)),
        ("a", 9, Ok(b"first".as_slice())),
        ("c", 9, Err(FileError::Failed)),
    ];
    check_reads(&rt, alloc, &mut files, &reads);
    Ok(())
}

#[test]
fn puts_to_standard_output(rt: HostRuntime) {
    let mut out = OutSink::new(&rt);
    assert!(rt; out.put(b"a piece\n").is_ok());
}

// Put number 1 fails after two bytes, and for the last byte of the last piece no room is left.
#[test]
fn puts_to_memory(rt: HostRuntime) -> Result<(), AllocError> {
    let room = vec![in rt.alloc(); 0u8; 8]?;
    let mut sink = MemSink::new(room, vec![in rt.alloc(); (1, 2)]?);
    assert!(rt; sink.put(b"one").is_ok());
    assert!(rt; sink.put(b"two").is_err());
    assert!(rt; sink.put(b"four").is_err());
    assert_eq!(rt; sink.bytes(), b"onetwfou".as_slice());
    Ok(())
}

#[test]
fn collects_pieces(rt: HostRuntime) -> Result<(), AllocError> {
    let mut sink = VecSink::new(rt.alloc())?;
    sink.add(b"one ")?;
    sink.add(b"two")?;
    assert_eq!(rt; sink.bytes(), b"one two".as_slice());
    Ok(())
}
