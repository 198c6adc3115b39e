ghost use Rattle.std.specs.Prelude.{◌≤◌, IfOk};

use super::*;
use std::io;
use std::io::{Read, Write};
use std::test::Fail;

#[test]
fn reads_memory_in_chunks(rt: HostRuntime) -> Result<(), Fail> {
    let bytes = Vec::from_slice(rt.alloc(), b"abcdefghij")?;
    let mut source = MemSource::new(bytes, 4, vec![in rt.alloc(); 2, 6]?);
    let mut into = [0u8; 8];
    for (answer, left) in [
        (Ok(4), "efghij"),
        (Err(Failed), "efghij"),
        (Ok(4), "ij"),
        (Ok(2), ""),
        (Ok(0), ""),
        (Err(Failed), ""),
        (Ok(0), ""),
    ] {
        assert_eq!(rt; source.read(&mut into), answer, "before {left}");
        assert_eq!(rt; source.left(), left.as_bytes());
    }
    assert_eq!(rt; into.as_slice(), b"ijgh\0\0\0\0".as_slice());
    Ok(())
}

#[test]
fn writes_memory_in_chunks(rt: HostRuntime) -> Result<(), Fail> {
    let room = Vec::from_slice(rt.alloc(), b"..........")?;
    let mut sink = MemSink::new(room, 4, vec![in rt.alloc(); 2]?);
    for (piece, answer, written) in [
        ("abcdef", Ok(4), "abcd"),
        ("ef", Err(Failed), "abcd"),
        ("ef", Ok(2), "abcdef"),
        ("", Ok(0), "abcdef"),
        ("ghijkl", Ok(4), "abcdefghij"),
        ("kl", Err(Failed), "abcdefghij"),
        ("", Ok(0), "abcdefghij"),
    ] {
        assert_eq!(rt;
            sink.write(piece.as_bytes()),
            answer,
            "{piece} to {written}"
        );
        assert_eq!(rt; sink.written(), written.as_bytes());
    }
    Ok(())
}

#[test]
fn reads_and_writes_memory_whole(rt: HostRuntime) -> Result<(), Fail> {
    let mut source = SureSource::new(Vec::from_slice(rt.alloc(), b"abcdef")?);
    let mut into = [0u8; 4];
    for (answer, held) in [(Ok(4), "abcd"), (Ok(2), "efcd"), (Ok(0), "efcd")] {
        assert_eq!(rt; source.read(&mut into), answer);
        assert_eq!(rt; into.as_slice(), held.as_bytes());
    }
    let mut sink = SureSink::new(Vec::from_slice(rt.alloc(), b".....")?);
    for (piece, answer, written, spare) in [
        ("abc", Ok(3), "abc", 2),
        ("defg", Ok(2), "abcde", 0),
        ("fg", Err(Failed), "abcde", 0),
        ("", Ok(0), "abcde", 0),
    ] {
        assert_eq!(rt; sink.write(piece.as_bytes()), answer);
        assert_eq!(rt; sink.written(), written.as_bytes());
        assert_eq!(rt; sink.spare(), spare);
    }
    Ok(())
}

// A stream whose second call gives an error, and whose fourth moves nothing.
#[derive(Drop)]
struct Faulty {
    calls: u8,
}

impl Faulty {
    fn amount(&mut self, asked: usize) -> io::Result<usize>
        ensures { IfOk result (λ count. count ≤ asked) }
    {
        self.calls = self.calls.saturating_add(1);
        match self.calls {
            2 => Err(io::ErrorKind::Other.into()),
            4 => Ok(0),
            _ => Ok(asked.min(3)),
        }
    }
}

impl Read for Faulty {
    fn read(&mut self, buf: &mut [u8]) -> io::Result<usize> {
        let count = self.amount(buf.len())?;
        buf[..count].fill(b'x');
        Ok(count)
    }
}

impl Write for Faulty {
    fn write(&mut self, buf: &[u8]) -> io::Result<usize> {
        self.amount(buf.len())
    }

    fn flush(&mut self) -> io::Result<()> {
        Ok(())
    }
}

#[test]
fn reports_each_fault_of_a_stream(rt: HostRuntime) {
    let mut source = StreamSource::new(Faulty { calls: 0 });
    let mut sink = StreamSink::new(Faulty { calls: 0 });
    let mut into = [0u8; 4];
    for (read, written) in [
        (Ok(3), Ok(3)),
        (Err(Failed), Err(Failed)),
        (Ok(3), Ok(3)),
        (Ok(0), Err(Failed)),
        (Ok(3), Ok(3)),
    ] {
        assert_eq!(rt; source.read(&mut into), read);
        assert_eq!(rt; sink.write(b"abcd"), written);
    }
    assert_eq!(rt; into.as_slice(), b"xxx\0".as_slice());
    assert_eq!(rt; sink.write(b""), Ok(0));
}
