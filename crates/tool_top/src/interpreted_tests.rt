// Specifications that are interpreted, and what they write.
ghost use Rattle.std.specs.Prelude.{◌≤◌};

use super::tests::words;
use crate::{Outcome, Tool, run_tool};
use sm_io::{MemShelf, MemSink, MemSource, VecSink};
use std::alloc::{AllocError, Global};
use std::process::Abort;
use std::test::Fail;

const HEATER: &str =
    "(spec heater\n  (extern temp Int32)\n  (trigger heat (< temp 18:Int32) temp))\n";

// A text, an input, the events that it writes, and the line of the answer.
const ROWS: [(&str, &str, &str, &str); 16] = [
    (HEATER, "temp\n20\n17\n", "1 heat 17\n", ""),
    ("(spec a)", "", "", ""),
    (
        "(spec w (extern w Word16) (trigger t true (* w w)))",
        "w\n65535\n",
        "0 t 1\n",
        "",
    ),
    (
        "(spec m (stream s Int64 (-9223372036854775808:Int64) s) (trigger t (== s -9223372036854775808:Int64) s))",
        "k\n1\n",
        "0 t -9223372036854775808\n",
        "",
    ),
    (
        "(spec q (extern a Int32) (extern b Int32) (trigger q true (if (== b 0:Int32) 0:Int32 (quot a b)) (if (== b 0:Int32) 0:Int32 (rem a b))))",
        "a,b\n7,0\n-7,2\n-2147483648,-1\n",
        "0 q 0 0\n1 q -3 -1\n",
        "hazard: Overflow at step 2\n",
    ),
    (
        "(spec pair (stream x Int32 (1:Int32) (+ x (drop 4 y))) (stream y Int32 (0:Int32 1:Int32 2:Int32 3:Int32 4:Int32) x) (trigger o true x y))",
        "k\n1\n1\n1\n1\n1\n1\n",
        "0 o 1 0\n1 o 5 1\n2 o 6 2\n3 o 11 3\n4 o 17 4\n5 o 28 1\n",
        "",
    ),
    (
        "(spec g (struct P (x Int16) (y Int16)) (extern p (array P 3)) (extern i Word32) (trigger t true (field (index p i) x)))",
        "p[0].x,p[0].y,p[1].x,p[1].y,p[2].x,p[2].y,i\n1,2,3,4,5,6,2\n1,2,3,4,5,6,3\n",
        "0 t 5\n",
        "hazard: BadIndex at step 1\n",
    ),
    (
        "(spec l (extern p Bool) (extern q Bool) (trigger a true (since p q) (once-in 0 0 q) (historically-in 2 4 p)))",
        "p,q\n1,0\n1,1\n0,0\n1,0\n1,1\n1,0\n",
        "0 a false false true\n1 a true true true\n2 a false false true\n3 a false false true\n4 a true true false\n5 a true false false\n",
        "",
    ),
    (
        "(spec z (extern d Int32) (trigger a (if (== d 0:Int32) false (once (> (quot 6:Int32 d) 2:Int32)))))",
        "d\n2\n0\n",
        "0 a\n",
        "hazard: ZeroDivisor at step 1\n",
    ),
    (
        HEATER,
        "temp,site\r\n17,a\r\n\r\n18,b\r\n16,c\r\n 15 ,d\nx,e",
        "0 heat 17\n2 heat 16\n3 heat 15\n",
        "row: BadField temp at line 7\n",
    ),
    (HEATER, "t\n17\n", "", "row: NoColumn temp at line 1\n"),
    (
        "(spec v (extern a Word8) (extern b Word8) (extern c Word8) (trigger m true (majority a b c) (agreed a b c) (window-max 2 a) (window-sum 2 a)) (trigger k (clock 2 1)))",
        "a,b,c\n1,1,2\n3,4,5\n255,7,7\n",
        "0 m 1 true 1 1\n1 m 3 false 3 4\n1 k\n2 m 7 true 255 2\n",
        "",
    ),
    (
        "(spec o (extern x Int8) (observer y (abs x)))",
        "x\n-5\n-128\n",
        "0 =y 5\n",
        "hazard: Overflow at step 1\n",
    ),
    (
        "(spec o (extern x Int8) (observer y (- 0:Int8 x)))",
        "x\n-5\n-128\n",
        "0 =y 5\n",
        "hazard: Overflow at step 1\n",
    ),
    (
        "(spec y (extern p Bool) (trigger a (yesterday p)) (trigger b (weakly-yesterday p)))",
        "p\n1\n0\n1\n",
        "0 b\n1 a\n1 b\n",
        "",
    ),
    (
        "(spec2 m (extern a Int8) (trigger t (> a 0:Int8) a) (trigger t (< a 5:Int8) 1:Int8))",
        "a\n3\n9\n",
        "0 t 3\n0 t 1\n1 t 9\n",
        "",
    ),
];

const PAIR: &str =
    "(spec pair (stream x Int32 (1:Int32) (+ x (drop 4 y))) (stream y Int32 (0:Int32 1:Int32 2:Int32 3:Int32 4:Int32) x) (trigger o true x y))";

const PAIR_ROWS: &[u8] = b"k\n1\n1\n1\n1\n1\n1\n";

const PAIR_EVENTS: &[u8] = b"0 o 1 0\n1 o 5 1\n2 o 6 2\n3 o 11 3\n4 o 17 4\n5 o 28 1\n";

// A folder with a specification.
fn shelf_of(alloc: Global, text: &str) -> Result<MemShelf, AllocError> {
    let mut shelf = MemShelf::new(alloc, Vec::new(alloc));
    shelf.add("a.spec", text.as_bytes().to_vec(alloc)?)?;
    Ok(shelf)
}

// `interpret a.spec` over an input and an output.
fn interpret(
    alloc: Global,
    text: &str,
    input: &mut MemSource,
    out: &mut MemSink,
    line: &mut VecSink,
) -> Result<Outcome, AllocError> {
    let mut shelf = shelf_of(alloc, text)?;
    let words = words(alloc, &["interpret", "a.spec"])?;
    Ok(run_tool(alloc, Tool::Copilot, &words, input, out, line, &mut shelf))
}

// Runs a row with its input in pieces of this size.
fn run_row(
    rt: &impl Abort,
    alloc: Global,
    row: &(&str, &str, &str, &str),
    piece: usize,
) -> Result<(), AllocError>
    requires { 1 ≤ piece }
{
    let (text, rows, events, want) = row;
    let mut input = MemSource::new(rows.as_bytes().to_vec(alloc)?, piece, Vec::new(alloc));
    let mut out = MemSink::new(alloc, 4096, Vec::new(alloc))?;
    let mut line = VecSink::new(alloc);
    let _ = interpret(alloc, text, &mut input, &mut out, &mut line)?;
    assert_eq!(rt; out.taken(), events.as_bytes(), "{text}");
    assert_eq!(rt; line.taken(), want.as_bytes(), "{text}");
    Ok(())
}

#[test]
fn interpreted_rows(rt: HostRuntime) -> Result<(), Fail> {
    let alloc = rt.alloc();
    for row in &ROWS {
        run_row(&rt, alloc, row, 1)?;
        run_row(&rt, alloc, row, 4096)?;
    }
    Ok(())
}

// A sink with room for `k` bytes takes a prefix of the events.
#[test]
fn full_outputs(rt: HostRuntime) -> Result<(), Fail> {
    let alloc = rt.alloc();
    for k in 0..51 {
        let mut input = MemSource::new(PAIR_ROWS.to_vec(alloc)?, 4096, Vec::new(alloc));
        let mut out = MemSink::new(alloc, k, Vec::new(alloc))?;
        let mut line = VecSink::new(alloc);
        let outcome = interpret(alloc, PAIR, &mut input, &mut out, &mut line)?;
        assert_eq!(rt; outcome, Outcome::WriteFault, "room for {k}");
        assert!(rt; out.taken().len() <= k, "room for {k}");
        assert!(rt; PAIR_EVENTS.starts_with(out.taken()), "room for {k}");
    }
    Ok(())
}

// The number of the read that fails, with pieces of one byte, and the events of the whole lines before it.
const FAILING: [(u64, &str); 15] = [
    (0, ""),
    (1, ""),
    (2, ""),
    (3, ""),
    (4, "0 o 1 0\n"),
    (5, "0 o 1 0\n"),
    (6, "0 o 1 0\n1 o 5 1\n"),
    (7, "0 o 1 0\n1 o 5 1\n"),
    (8, "0 o 1 0\n1 o 5 1\n2 o 6 2\n"),
    (9, "0 o 1 0\n1 o 5 1\n2 o 6 2\n"),
    (10, "0 o 1 0\n1 o 5 1\n2 o 6 2\n3 o 11 3\n"),
    (11, "0 o 1 0\n1 o 5 1\n2 o 6 2\n3 o 11 3\n"),
    (12, "0 o 1 0\n1 o 5 1\n2 o 6 2\n3 o 11 3\n4 o 17 4\n"),
    (13, "0 o 1 0\n1 o 5 1\n2 o 6 2\n3 o 11 3\n4 o 17 4\n"),
    (
        14,
        "0 o 1 0\n1 o 5 1\n2 o 6 2\n3 o 11 3\n4 o 17 4\n5 o 28 1\n",
    ),
];

#[test]
fn failing_inputs(rt: HostRuntime) -> Result<(), Fail> {
    let alloc = rt.alloc();
    for (k, events) in FAILING {
        let mut input = MemSource::new(PAIR_ROWS.to_vec(alloc)?, 1, vec![in alloc; k]?);
        let mut out = MemSink::new(alloc, 4096, Vec::new(alloc))?;
        let mut line = VecSink::new(alloc);
        let outcome = interpret(alloc, PAIR, &mut input, &mut out, &mut line)?;
        assert_eq!(rt; outcome, Outcome::ReadFault, "read {k}");
        assert_eq!(rt; out.taken(), events.as_bytes(), "read {k}");
    }
    Ok(())
}

// The second read fails, with pieces of 12 bytes.
#[test]
fn a_read_that_fails(rt: HostRuntime) -> Result<(), Fail> {
    let alloc = rt.alloc();
    let mut input = MemSource::new(b"temp\n17\n16\n15\n".to_vec(alloc)?, 12, vec![in alloc; 1]?);
    let mut out = MemSink::new(alloc, 4096, Vec::new(alloc))?;
    let mut line = VecSink::new(alloc);
    let outcome = interpret(alloc, HEATER, &mut input, &mut out, &mut line)?;
    assert_eq!(rt; outcome.code(), 5);
    assert_eq!(rt; out.taken(), b"0 heat 17\n1 heat 16\n".as_slice());
    assert_eq!(rt; line.taken(), b"read fault\n".as_slice());
    Ok(())
}

// A header and so many rows of a column that is passed over.
fn ones(alloc: Global, rows: u32) -> Result<Vec<u8>, AllocError> {
    let mut text = b"k\n".to_vec(alloc)?;
    for _ in 0..rows {
        text.extend_from_slice(b"1\n")?;
    }
    Ok(text)
}

// A text, the number of rows, and the events and the line that it gives.
const COUNTERS: [(&str, u32, &str, &str); 2] = [
    (
        "(spec c (stream n Word8 (0:Word8) (+ n 1:Word8)) (trigger t (== n 0:Word8) n))",
        258,
        "0 t 0\n256 t 0\n",
        "",
    ),
    (
        "(spec c (stream n Int8 (0:Int8) (+ n 1:Int8)) (trigger t (> n 124:Int8) n))",
        130,
        "125 t 125\n126 t 126\n",
        "hazard: Overflow at step 127\n",
    ),
];

#[test]
fn counters(rt: HostRuntime) -> Result<(), Fail> {
    let alloc = rt.alloc();
    for (text, rows, events, want) in COUNTERS {
        let mut input = MemSource::new(ones(alloc, rows)?, 4096, Vec::new(alloc));
        let mut out = MemSink::new(alloc, 4096, Vec::new(alloc))?;
        let mut line = VecSink::new(alloc);
        let _ = interpret(alloc, text, &mut input, &mut out, &mut line)?;
        assert_eq!(rt; out.taken(), events.as_bytes(), "{text}");
        assert_eq!(rt; line.taken(), want.as_bytes(), "{text}");
    }
    Ok(())
}

// The events of the wrapping counter at each step whose number is a multiple of 256, below 1,024 times 256.
fn long_events(alloc: Global) -> Result<Vec<u8>, AllocError> {
    let mut events = Vec::new(alloc);
    for turn in 0..1024u32 {
        events.extend_from_slice(itoa::Buffer::new().format(turn * 256).as_bytes())?;
        events.extend_from_slice(b" t 0\n")?;
    }
    Ok(events)
}

// Over 262,144 rows no step costs more than the first.
#[test]
fn a_long_counter(rt: HostRuntime) -> Result<(), Fail> {
    let alloc = rt.alloc();
    let mut input = MemSource::new(ones(alloc, 262_144)?, 4096, Vec::new(alloc));
    let mut out = MemSink::new(alloc, 65_536, Vec::new(alloc))?;
    let mut line = VecSink::new(alloc);
    let outcome = interpret(alloc, COUNTERS[0].0, &mut input, &mut out, &mut line)?;
    assert_eq!(rt; outcome, Outcome::Done);
    assert_eq!(rt; out.taken(), long_events(alloc)?.as_slice());
    Ok(())
}

// A line of so many bytes, in a column that is passed over.
#[test]
fn lines_at_the_limit(rt: HostRuntime) -> Result<(), Fail> {
    let alloc = rt.alloc();
    for (bytes, events, want) in [
        (1_048_573, "0 heat 17\n", ""),
        (1_048_574, "", "row: LineTooLong at line 2\n"),
    ] {
        let mut text = b"temp,site\n17,".to_vec(alloc)?;
        text.extend_from_slice(&Vec::from_elem(alloc, b'a', bytes)?)?;
        text.extend_from_slice(b"\n")?;
        let mut input = MemSource::new(text, 4096, Vec::new(alloc));
        let mut out = MemSink::new(alloc, 4096, Vec::new(alloc))?;
        let mut line = VecSink::new(alloc);
        let _ = interpret(alloc, HEATER, &mut input, &mut out, &mut line)?;
        assert_eq!(rt; out.taken(), events.as_bytes(), "{bytes}");
        assert_eq!(rt; line.taken(), want.as_bytes(), "{bytes}");
    }
    Ok(())
}
