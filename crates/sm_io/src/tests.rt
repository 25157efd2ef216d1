ghost use Rattle.std.specs.Prelude.{◌≤◌, IfOk};

use super::*;
use std::fs;
use std::io::{self, ErrorKind, Read, Write};
use std::test::Fail;

// Texts, and whether they are names.
const NAMES: [(&str, bool); 24] = [
    ("heater", true),
    ("a_B9", true),
    ("t", true),
    ("a234567890123456789012345678901", true),
    ("a2345678901234567890123456789012", false),
    ("", false),
    ("9a", false),
    ("_t", false),
    ("a-b", false),
    ("while", false),
    ("restrict", false),
    ("bool", false),
    ("step", false),
    ("main", false),
    ("Word16", false),
    ("Double", false),
    ("array", false),
    ("cp_x", false),
    ("CP_x", false),
    ("size_t", false),
    ("INT8_MAX", false),
    ("SIG_ATOMIC_MIN", false),
    ("UINTMAX_C", false),
    ("SIZE_MAX_", true),
];

#[test]
fn names(rt: HostRuntime) -> Result<(), Fail> {
    for (text, want) in NAMES {
        assert_eq!(rt; is_name(text.as_bytes()), want, "{text}");
    }
    let alloc = rt.alloc();
    let name = Name::new(b"ab".to_vec(alloc)?);
    let same = name.copy(alloc)?;
    assert!(rt; name == same);
    assert_eq!(rt; same.bytes(), b"ab".as_slice());
    let text = Text::new(b"x y".to_vec(alloc)?).copy(alloc)?;
    assert_eq!(rt; text.bytes(), b"x y".as_slice());
    let mut list = Seq::of(vec![in alloc; 1u8]?);
    list.push(2)?;
    assert_eq!(rt; list.as_slice(), [1u8, 2].as_slice());
    let empty: Seq<u8> = Seq::new(alloc);
    assert!(rt; empty.as_slice().is_empty());
    Ok(())
}

#[test]
fn sources_and_sinks_in_memory(rt: HostRuntime) -> Result<(), Fail> {
    let alloc = rt.alloc();
    let mut source = MemSource::new(b"temp\n17\n".to_vec(alloc)?, 5, vec![in alloc; 1u64]?);
    let mut buf = [0u8; 8];
    assert_eq!(rt; read_some(&mut source, &mut buf), Ok(5));
    assert_eq!(rt; buf, *b"temp\n\0\0\0");
    assert_eq!(rt; read_some(&mut source, &mut buf), Err(Failed));
    assert_eq!(rt; read_some(&mut source, &mut buf), Ok(3));
    assert_eq!(rt; read_some(&mut source, &mut buf), Ok(0));

    let mut sink = MemSink::new(alloc, 5, vec![in alloc; 0u64]?)?;
    assert_eq!(rt; write_all(&mut sink, b"no"), Err(Failed));
    assert_eq!(rt; write_all(&mut sink, b"abc"), Ok(()));
    assert_eq!(rt; write_parts(&mut sink, &[b"d", b"", b"efg"]), Err(Failed));
    assert_eq!(rt; sink.taken(), b"abcde".as_slice());

    let mut growing = VecSink::new(alloc);
    assert_eq!(rt; write_parts(&mut growing, &[b"one ", b"two"]), Ok(()));
    assert_eq!(rt; growing.taken(), b"one two".as_slice());
    assert_eq!(rt; growing.starved(), 0);
    Ok(())
}

#[test]
fn a_shelf_in_memory(rt: HostRuntime) -> Result<(), Fail> {
    let alloc = rt.alloc();
    let mut shelf = MemShelf::new(alloc, vec![in alloc; 1u64, 3]?);
    shelf.add("a", b"old".to_vec(alloc)?)?;
    assert_eq!(rt; shelf.put("a", b"new"), Ok(()));
    assert_eq!(rt; shelf.put("b", b"lost"), Err(Failed));
    let Ok(bytes) = shelf.fetch(alloc, "a", 3) else {
        return Err(Fail::from("fetch"));
    };
    assert_eq!(rt; bytes.as_slice(), b"new".as_slice());
    assert!(rt; matches!(shelf.fetch(alloc, "a", 3), Err(FetchFault::Failed)));
    assert!(rt; matches!(shelf.fetch(alloc, "a", 2), Err(FetchFault::TooLong)));
    assert!(rt; matches!(shelf.fetch(alloc, "c", 2), Err(FetchFault::Missing)));
    assert_eq!(rt; shelf.get("a"), Some(b"new".as_slice()));
    assert_eq!(rt; shelf.get("c"), None);
    assert_eq!(rt; shelf.starved(), 0);
    Ok(())
}

#[test]
fn real_files(rt: HostRuntime) -> Result<(), Fail> {
    let alloc = rt.alloc();
    let mut shelf = DirShelf::new(rt);
    assert!(rt;
        matches!(
            shelf.fetch(alloc, "absent.txt", 9),
            Err(FetchFault::Missing)
        )
    );
    assert_eq!(rt; shelf.put("real.txt", b"first text"), Ok(()));
    assert_eq!(rt; shelf.put("real.txt", b"second"), Ok(()));
    let Ok(bytes) = shelf.fetch(alloc, "real.txt", 6) else {
        return Err(Fail::from("fetch"));
    };
    assert_eq!(rt; bytes.as_slice(), b"second".as_slice());
    assert!(rt; matches!(shelf.fetch(alloc, "real.txt", 5), Err(FetchFault::TooLong)));
    let long = Vec::from_elem(alloc, b'x', 9000)?;
    assert_eq!(rt; shelf.put("long.txt", &long), Ok(()));
    let Ok(bytes) = shelf.fetch(alloc, "long.txt", 9000) else {
        return Err(Fail::from("fetch"));
    };
    assert_eq!(rt; bytes, long);
    assert!(rt;
        matches!(
            shelf.fetch(alloc, "long.txt", 8999),
            Err(FetchFault::TooLong)
        )
    );
    let _ = fs::create_dir(&rt, "folder");
    assert!(rt; matches!(shelf.fetch(alloc, "folder", 9), Err(FetchFault::Failed)));
    assert_eq!(rt; shelf.put("folder", b"text"), Err(Failed));

    let mut sink = StdSink::new(fs::create(&rt, "stream.txt")?);
    assert_eq!(rt; write_all(&mut sink, b"a line\n"), Ok(()));
    let mut source = StdSource::new(fs::open(&rt, "stream.txt")?);
    let mut buf = [0u8; 9];
    assert_eq!(rt; read_some(&mut source, &mut buf), Ok(7));
    assert_eq!(rt; buf, *b"a line\n\0\0");
    assert_eq!(rt; read_some(&mut source, &mut buf), Ok(0));
    Ok(())
}

// A stream whose calls are in turn interrupted, answered with one byte, and failed.
#[derive(Drop)]
struct Unsteady {
    calls: u8,
}

impl Unsteady {
    fn answer(&mut self, length: usize) -> io::Result<usize>
        ensures { IfOk result (λ n. n ≤ length) }
    {
        self.calls = self.calls.wrapping_add(1);
        match self.calls % 3 {
            1 => Err(io::Error::from(ErrorKind::Interrupted)),
            2 => Ok(length.min(1)),
            _ => Err(io::Error::from(ErrorKind::NotFound)),
        }
    }
}

impl Read for Unsteady {
    fn read(&mut self, buf: &mut [u8]) -> io::Result<usize> {
        self.answer(buf.len())
    }
}

impl Write for Unsteady {
    fn write(&mut self, buf: &[u8]) -> io::Result<usize> {
        self.answer(buf.len())
    }

    fn flush(&mut self) -> io::Result<()> {
        Ok(())
    }
}

#[test]
fn interruptions_and_faults(rt: HostRuntime) -> Result<(), Fail> {
    let mut source = StdSource::new(Unsteady { calls: 0 });
    let mut buf = [0u8; 2];
    assert_eq!(rt; source.read(&mut buf), Ok(1));
    assert_eq!(rt; source.read(&mut buf), Err(Failed));
    assert_eq!(rt; source.read(&mut buf), Ok(1));
    let mut sink = StdSink::new(Unsteady { calls: 0 });
    assert_eq!(rt; sink.write(b"ab"), Ok(1));
    assert_eq!(rt; sink.write(b"ab"), Err(Failed));
    assert_eq!(rt; write_all(&mut sink, b"a"), Ok(()));
    assert!(rt;
        matches!(
            read_whole(rt.alloc(), &mut Unsteady { calls: 0 }, 9),
            Err(FetchFault::Failed)
        )
    );
    Ok(())
}
