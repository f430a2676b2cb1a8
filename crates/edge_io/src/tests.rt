// Whole texts through each source and each sink, and calls that fail.
use crate::{
    MemorySink, MemorySource, ReadError, StdSink, StdSource, WriteFault, read_all, write_all,
};
use std::io;
use std::io::{Cursor, Read, Write};
use std::test::Fail;

const TEXT: &[u8] = b"priority entries";

// A reader and a writer whose calls all fail.
#[derive(Drop)]
struct Broken;

impl Read for Broken {
    fn read(&mut self, _buf: &mut [u8]) -> io::Result<usize> {
        Err(io::ErrorKind::Other.into())
    }
}

impl Write for Broken {
    fn write(&mut self, _piece: &[u8]) -> io::Result<usize> {
        Err(io::ErrorKind::Other.into())
    }

    fn flush(&mut self) -> io::Result<()> {
        Ok(())
    }
}

#[test]
fn reads_all_or_says_why_not(rt: HostRuntime) -> Result<(), Fail> {
    let alloc = rt.alloc();
    // Reads of 4 bytes take four calls, and a fifth finds the end.
    let cases: [(&[u32], usize, usize, Option<ReadError>); 6] = [
        (&[], 4, 16, None),
        (&[5, u32::MAX], 4, 16, None),
        (&[4], 4, 16, Some(ReadError::Fault)),
        (&[1], 4, 16, Some(ReadError::Fault)),
        (&[], 4, 15, Some(ReadError::TooLong)),
        (&[], 100, 0, Some(ReadError::TooLong)),
    ];
    for (failing, chunk, limit, want) in cases {
        let mut source = MemorySource::new(
            TEXT.to_vec(alloc)?,
            failing.to_vec(alloc)?,
            chunk.max(1),
        );
        match read_all(alloc, &mut source, limit.min(4194304)) {
            Ok(bytes) => {
                assert_eq!(rt; bytes.as_slice(), TEXT);
                assert_eq!(rt; want, None);
            }
            Err(error) => assert_eq!(rt; Some(error), want),
        }
    }
    let mut whole = StdSource::new(TEXT);
    assert_eq!(rt; read_all(alloc, &mut whole, 16)?.as_slice(), TEXT);
    let mut broken = StdSource::new(Broken);
    assert!(rt; matches!(read_all(alloc, &mut broken, 16), Err(ReadError::Fault)));
    Ok(())
}

#[test]
fn writes_all_or_a_prefix(rt: HostRuntime) -> Result<(), Fail> {
    let alloc = rt.alloc();
    let cases: [(&[u32], usize, usize, usize); 4] = [
        (&[], 4, 16, 16),
        (&[4, u32::MAX], 4, 16, 16),
        (&[1], 4, 16, 4),
        (&[], 4, 15, 15),
    ];
    for (failing, chunk, room, taken) in cases {
        let mut sink = MemorySink::new(alloc, room, failing.to_vec(alloc)?, chunk.max(1))?;
        assert_eq!(rt; write_all(&mut sink, TEXT).is_ok(), taken == TEXT.len());
        assert_eq!(rt; sink.taken(), &TEXT[..taken.min(TEXT.len())]);
    }
    let mut bytes = Vec::new(alloc);
    let mut whole = StdSink::new(&mut bytes);
    assert_eq!(rt; write_all(&mut whole, TEXT), Ok(()));
    assert_eq!(rt; bytes.as_slice(), TEXT);
    let mut small = StdSink::new(Cursor::new([0u8; 4]));
    assert_eq!(rt; write_all(&mut small, TEXT), Err(WriteFault));
    let mut broken = StdSink::new(Broken);
    assert_eq!(rt; write_all(&mut broken, TEXT), Err(WriteFault));
    Ok(())
}
