// Sessions of a small machine over rows in pieces of several sizes, and failures in the midst of them.
ghost use Rattle.std.specs.Prelude.{◌≡◌, ◌≤◌, ◌∷◌, [], IfOk};
ghost use Rattle.stream_types.specs.declared.scalar.Scalar.TheVariants as scalar;
ghost use Rattle.extern_rows.specs.Leaves.{scalars_of};

use crate::gather::Gather;
use crate::{Ending, Stepper, Stop, run_session};
use extern_rows::{Leaf, RowFault};
use sm_io::{MemSink, MemSource, Sink, Text, write_all};
use std::alloc::{AllocError, Global};
use std::test::Fail;
use stream_types::Scalar;

// Writes a letter for each row, by its only word, and a line feed. It has a fault at the letter `n`.
#[derive(Drop)]
struct Letters {
    rows: u64,
}

impl Stepper<u64> for Letters {
    ghost use Rattle.std.specs.Prelude.{◌≡◌, [], ◌∷◌, length};
    ghost use Rattle.stream_types.specs.declared.scalar.Scalar.TheVariants as scalar;
    ghost use Rattle.row_sessions.specs.Letters.{letters_answer};

    ghost answers = { λ _ rows. letters_answer rows };

    ghost stands = { λ m rows. m.rows ≡ length rows };

    ghost scalars = { λ _. scalar.Int8 ∷ [] };

    fn step<K: Sink>(&mut self, row: &[u64], out: &mut K) -> Result<(), Stop<u64>> {
        self.rows = self.rows.saturating_add(1);
        let word = row[0] % 26;
        if word == 13 {
            return Err(Stop::Fault(self.rows));
        }
        match write_all(out, &[b'a' + word as u8, b'\n']) {
            Ok(()) => Ok(()),
            Err(_) => Err(Stop::Failed),
        }
    }
}

fn leaves_of(alloc: Global) -> Result<[Leaf; 1], AllocError>
    ensures { IfOk result (λ leaves. scalars_of leaves ≡ scalar.Int8 ∷ []) }
{
    let name = Text::new(Vec::from_slice(alloc, b"x")?);
    Ok([Leaf {
        name,
        scalar: Scalar::Int8,
    }])
}

// Runs the machine over a text in pieces of this size.
fn run(
    alloc: Global,
    text: &[u8],
    size: usize,
    fails: &[u64],
    out: &mut MemSink,
) -> Result<Ending<u64>, AllocError>
    requires { 1 ≤ size }
{
    let leaves = leaves_of(alloc)?;
    let bytes = Vec::from_slice(alloc, text)?;
    let mut input = MemSource::new(bytes, size, Vec::from_slice(alloc, fails)?);
    let mut machine = Letters { rows: 0 };
    Ok(run_session(alloc, &leaves, &mut machine, &mut input, out))
}

#[test]
fn runs_over_rows(rt: HostRuntime) -> Result<(), Fail> {
    let alloc = rt.alloc();
    let cases: [(&str, &str, Ending<u64>); 13] = [
        ("", "", Ending::Done),
        ("x", "", Ending::Done),
        ("x\n", "", Ending::Done),
        ("x\n1\n2\n", "b\nc\n", Ending::Done),
        ("x\r\n1\r\n\r\n \t\n2", "b\nc\n", Ending::Done),
        ("\n\nb,x,c\nu,3,v\n,4,\n", "d\ne\n", Ending::Done),
        (
            "x\n0\n13\n1\n",
            "a\n",
            Ending::Stopped { step: 1, fault: 2 },
        ),
        ("x\n0\n13", "a\n", Ending::Stopped { step: 1, fault: 2 }),
        (
            "x\n\n1\ny\n2\n",
            "b\n",
            Ending::BadRow {
                line: 4,
                fault: RowFault::BadField(0),
            },
        ),
        (
            "x\n1\n300",
            "b\n",
            Ending::BadRow {
                line: 3,
                fault: RowFault::BadField(0),
            },
        ),
        (
            "y\n1\n",
            "",
            Ending::BadRow {
                line: 1,
                fault: RowFault::NoColumn(0),
            },
        ),
        (
            "x,x\n1\n",
            "",
            Ending::BadRow {
                line: 1,
                fault: RowFault::TwoColumns(0),
            },
        ),
        (
            "x\n1,2\n",
            "",
            Ending::BadRow {
                line: 2,
                fault: RowFault::BadRecord,
            },
        ),
    ];
    for (text, want, ending) in &cases {
        for size in [1, 4096] {
            let mut out = MemSink::new(alloc, 100, Vec::new(alloc))?;
            let answer = run(alloc, text.as_bytes(), size, &[], &mut out)?;
            assert!(rt; answer == *ending, "{text} in pieces of {size}");
            assert!(rt;
                out.taken() == want.as_bytes(),
                "{text} in pieces of {size}"
            );
        }
    }
    Ok(())
}

#[test]
fn fails_in_the_midst(rt: HostRuntime) -> Result<(), Fail> {
    let alloc = rt.alloc();
    // the read that fails, the room, what is written, and the end; each read takes four bytes
    let cases: [(u64, usize, &str, Ending<u64>); 7] = [
        (0, 9, "", Ending::ReadFault),
        (1, 9, "b\n", Ending::ReadFault),
        (2, 9, "b\nc\nd\n", Ending::ReadFault),
        (9, 9, "b\nc\nd\ne\n", Ending::Done),
        (9, 3, "b\nc", Ending::WriteFault),
        (9, 0, "", Ending::WriteFault),
        (9, 7, "b\nc\nd\ne", Ending::WriteFault),
    ];
    for (read, room, want, ending) in &cases {
        let mut out = MemSink::new(alloc, *room, Vec::new(alloc))?;
        let answer = run(alloc, b"x\n1\n2\n3\n4", 4, &[*read], &mut out)?;
        assert!(rt; answer == *ending, "read {read}, room {room}");
        assert!(rt; out.taken() == want.as_bytes(), "read {read}, room {room}");
    }
    Ok(())
}

#[test]
fn stops_at_a_limit(rt: HostRuntime) -> Result<(), Fail> {
    let alloc = rt.alloc();
    let mut text = Vec::from_slice(alloc, b"x,k\n7,")?;
    text.extend_from_slice(&Vec::from_elem(alloc, b'k', 1_048_574)?)?;
    let mut out = MemSink::new(alloc, 9, Vec::new(alloc))?;
    let answer = run(alloc, &text, 4096, &[], &mut out)?;
    assert!(rt; answer == Ending::Done);
    assert!(rt; out.taken() == b"h\n".as_slice());
    text.push(b'k')?;
    let mut out = MemSink::new(alloc, 9, Vec::new(alloc))?;
    let answer = run(alloc, &text, 4096, &[], &mut out)?;
    let fault = RowFault::LineTooLong;
    assert!(rt; answer == Ending::BadRow { line: 2, fault });
    assert!(rt; out.taken().is_empty());
    Ok(())
}

#[test]
fn flushes_what_it_holds(rt: HostRuntime) -> Result<(), Fail> {
    let alloc = rt.alloc();
    let mut held = Gather::new(alloc);
    let mut out = MemSink::new(alloc, 5, Vec::new(alloc))?;
    assert!(rt; write_all(&mut held, b"abc").is_ok());
    assert!(rt; held.make_room(&mut out).is_ok());
    assert!(rt; out.taken().is_empty());
    assert!(rt; held.flush(&mut out).is_ok());
    assert!(rt; out.taken() == b"abc".as_slice());
    assert!(rt; write_all(&mut held, b"def").is_ok());
    assert!(rt; held.flush(&mut out).is_err());
    assert!(rt; out.taken() == b"abcde".as_slice());
    Ok(())
}
