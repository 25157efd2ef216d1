// Specifications that are compiled, and what `cexec` answers over their files.
use super::tests::{COMPILE_A, run, words};
use crate::{Outcome, Tool, run_tool};
use sm_io::{MemShelf, MemSink, MemSource, VecSink};
use std::alloc::{AllocError, Global};
use std::process::Abort;
use std::test::Fail;

const PAIR: &str =
    "(spec pair (stream x Int32 (1:Int32) (+ x (drop 4 y))) (stream y Int32 (0:Int32 1:Int32 2:Int32 3:Int32 4:Int32) x) (trigger o true x y))";

const PAIR_ROWS: &str = "k\n1\n1\n1\n1\n1\n1\n";

const PAIR_EVENTS: &str = "0 o 1 0\n1 o 5 1\n2 o 6 2\n3 o 11 3\n4 o 17 4\n5 o 28 1\n";

const HEATER: &str =
    "(spec heater\n  (extern temp Int32)\n  (trigger heat (< temp 18:Int32) temp))\n";

const THERMO: &str =
    "(spec thermo\n  (extern temp Int32)\n  (extern heater Bool)\n  (extern fan Bool)\n  (extern level Word8)\n  (trigger handler_r01 (not (< temp 100:Int32)))\n  (trigger handler_r02 (not (historically (> temp -40:Int32))))\n  (trigger handler_r03 (not (implies heater (not fan))))\n  (trigger handler_r04 (not (implies fan (once (>= temp 60:Int32)))))\n  (trigger handler_r05 (not (once-in 0 3 (> level 0:Word8))))\n  (trigger handler_r06 (not (historically-in 1 2 (< temp 90:Int32))))\n  (trigger handler_r07 (not (implies (>= temp 80:Int32) fan)))\n  (trigger handler_r08 (not (implies heater (weakly-yesterday (not fan)))))\n  (trigger handler_r09 (not (or (since (not heater) (>= temp 60:Int32)) (historically (< temp 60:Int32)))))\n  (trigger handler_r10 (not (or (since-in 0 2 (>= level 5:Word8) fan) (not fan))))\n  (trigger handler_r11 (not (and (<= level 200:Word8) (/= level 7:Word8))))\n  (trigger handler_r12 (not (== heater (< temp 20:Int32)))))\n";

const THERMO_EVENTS: &str =
    "0 handler_r05\n2 handler_r11\n3 handler_r03\n3 handler_r08\n3 handler_r12\n4 handler_r06\n4 handler_r08\n4 handler_r12\n";

// A text, an input, the events that its program writes, and the line of the answer.
const ROWS: [(&str, &str, &str, &str); 9] = [
    (PAIR, PAIR_ROWS, PAIR_EVENTS, ""),
    (HEATER, "temp\n20\n17\n", "1 heat 17\n", ""),
    (
        "(spec2 m (extern a Int8) (trigger t (> a 0:Int8) a) (trigger t (< a 5:Int8) 1:Int8))",
        "a\n3\n9\n",
        "0 t 3\n0 t 1\n1 t 9\n",
        "",
    ),
    (
        THERMO,
        "temp,heater,fan,level\n15,true,false,0\n25,false,false,3\n85,false,true,7\n95,true,true,0\n70,true,false,0\n",
        THERMO_EVENTS,
        "",
    ),
    (
        "(spec w (extern w Word16) (trigger t true (* w w)))",
        "w\n65535\n",
        "0 t 1\n",
        "",
    ),
    (
        "(spec q (extern a Int32) (extern b Int32) (trigger q true (if (== b 0:Int32) 0:Int32 (quot a b)) (if (== b 0:Int32) 0:Int32 (rem a b))))",
        "a,b\n7,0\n-7,2\n-2147483648,-1\n",
        "0 q 0 0\n1 q -3 -1\n",
        "undefined: Overflow at step 2\n",
    ),
    (
        "(spec g (struct P (x Int16) (y Int16)) (extern p (array P 3)) (extern i Word32) (trigger t true (field (index p i) x)))",
        "p[0].x,p[0].y,p[1].x,p[1].y,p[2].x,p[2].y,i\n1,2,3,4,5,6,2\n1,2,3,4,5,6,3\n",
        "0 t 5\n",
        "undefined: BadIndex at step 1\n",
    ),
    (
        HEATER,
        "temp,site\r\n17,a\r\n\r\n18,b\r\n16,c\r\n 15 ,d\nx,e",
        "0 heat 17\n2 heat 16\n3 heat 15\n",
        "row: BadField temp at line 7\n",
    ),
    (HEATER, "t\n17\n", "", "row: NoColumn temp at line 1\n"),
];

// The files of `compile a.spec a` over a text.
fn compiled(rt: &impl Abort, alloc: Global, text: &str) -> Result<MemShelf, AllocError> {
    let mut shelf = MemShelf::new(alloc, Vec::new(alloc));
    shelf.add("a.spec", text.as_bytes().to_vec(alloc)?)?;
    let told = run(alloc, Tool::Copilot, COMPILE_A, &mut shelf)?;
    assert_eq!(rt; told.outcome, Outcome::Done, "{text}");
    Ok(shelf)
}

// `cexec NAME` over a folder.
fn execute(
    alloc: Global,
    name: &str,
    shelf: &mut MemShelf,
    rows: Vec<u8>,
    out: &mut MemSink,
    line: &mut VecSink,
) -> Result<Outcome, AllocError> {
    let words = words(alloc, &["cexec", name])?;
    let mut input = MemSource::new(rows, 4096, Vec::new(alloc));
    Ok(run_tool(alloc, Tool::Copilot, &words, &mut input, out, line, shelf))
}

// Runs the two files of a folder over some rows.
fn run_files(
    rt: &impl Abort,
    alloc: Global,
    shelf: &mut MemShelf,
    rows: &str,
    events: &str,
    want: &str,
) -> Result<(), AllocError> {
    let mut out = MemSink::new(alloc, 4096, Vec::new(alloc))?;
    let mut line = VecSink::new(alloc);
    let rows = rows.as_bytes().to_vec(alloc)?;
    let _ = execute(alloc, "a", shelf, rows, &mut out, &mut line)?;
    assert_eq!(rt; out.taken(), events.as_bytes(), "{want}");
    assert_eq!(rt; line.taken(), want.as_bytes(), "{events}");
    Ok(())
}

// 'C run again', 'Requirements in ordinary use' and others: what is compiled runs as it is interpreted.
#[test]
fn executed_rows(rt: HostRuntime) -> Result<(), Fail> {
    let alloc = rt.alloc();
    for (text, rows, events, want) in ROWS {
        let mut shelf = compiled(&rt, alloc, text)?;
        run_files(&rt, alloc, &mut shelf, rows, events, want)?;
    }
    Ok(())
}

const COUNTER_HEADER: &str =
    "#ifndef CP_a_H\n#define CP_a_H\n#include <stdint.h>\n#include <stdbool.h>\nenum { cp_storage = 5, cp_need = 17 };\nvoid t(uint8_t);\nvoid step(void);\n#endif\n";

// The wrapping counter in the old layout, with `% 0U` in place of its first `% 1U`.
const COUNTER_BY_ZERO: &str =
    "#include \"a.h\"\nstatic uint8_t cp_b_n[1] = { 0U };\nstatic uint32_t cp_i_n = 0U;\nvoid step(void)\n{\n  if ((cp_b_n[((cp_i_n + 0U) % 0U)] == 0U)) { t(cp_b_n[((cp_i_n + 0U) % 1U)]); }\n  uint8_t cp_n_n = ((uint8_t)(((uint32_t)cp_b_n[((cp_i_n + 0U) % 1U)]) + ((uint32_t)1U)));\n  cp_b_n[cp_i_n] = cp_n_n;\n  cp_i_n = ((cp_i_n + 1U) % 1U);\n}\n";

const SMALL_HEADER: &str =
    "#ifndef CP_a_H\n#define CP_a_H\n#include <stdint.h>\n#include <stdbool.h>\nenum { cp_storage = 1, cp_need = 5 };\nvoid t(uint8_t);\nvoid step(void);\n#endif\n";

const SMALL_SOURCE: &str =
    "#include \"a.h\"\nstatic uint8_t cp_b_n = 0U;\nvoid step(void)\n{\n  if ((cp_b_n == 0U)) { t(cp_b_n); }\n  uint8_t cp_n_n = ((uint8_t)(((uint32_t)cp_b_n) + ((uint32_t)1U)));\n  cp_b_n = cp_n_n;\n}\n";

// The same, whose statements put the ring before its next value is made.
const SMALL_TURNED: &str =
    "#include \"a.h\"\nstatic uint8_t cp_b_n = 0U;\nvoid step(void)\n{\n  if ((cp_b_n == 0U)) { t(cp_b_n); }\n  cp_b_n = cp_n_n;\n  uint8_t cp_n_n = ((uint8_t)(((uint32_t)cp_b_n) + ((uint32_t)1U)));\n}\n";

// A header and a source that anybody wrote, and the line over one row.
const FILES: [(&str, &str, &str, &str); 6] = [
    (
        COUNTER_HEADER,
        COUNTER_BY_ZERO,
        "",
        "undefined: ZeroDivisor at step 0\n",
    ),
    (SMALL_HEADER, SMALL_SOURCE, "0 t 0\n", ""),
    ("", SMALL_SOURCE, "", "error: NotHeader\n"),
    (SMALL_HEADER, "", "", "error: NotSource\n"),
    (SMALL_HEADER, COUNTER_BY_ZERO, "", "error: NotWellFormed\n"),
    (SMALL_HEADER, SMALL_TURNED, "", "error: NotWellFormed\n"),
];

fn shelf_of(alloc: Global, header: &str, source: &str) -> Result<MemShelf, AllocError> {
    let mut shelf = MemShelf::new(alloc, Vec::new(alloc));
    shelf.add("a.h", header.as_bytes().to_vec(alloc)?)?;
    shelf.add("a.c", source.as_bytes().to_vec(alloc)?)?;
    Ok(shelf)
}

#[test]
fn executed_files(rt: HostRuntime) -> Result<(), Fail> {
    let alloc = rt.alloc();
    for (header, source, events, want) in FILES {
        let mut shelf = shelf_of(alloc, header, source)?;
        run_files(&rt, alloc, &mut shelf, "k\n1\n", events, want)?;
    }
    Ok(())
}

// Where the first `%` of a source is `$`, no program has it.
#[test]
fn a_byte_of_no_program(rt: HostRuntime) -> Result<(), Fail> {
    let alloc = rt.alloc();
    let compiled = compiled(&rt, alloc, PAIR)?;
    let header = compiled.get("a.h").unwrap_or(b"none");
    let source = compiled.get("a.c").unwrap_or(b"none");
    let mut wrong = Vec::new(alloc);
    let mut found = false;
    for b in source {
        let turned = !found && *b == b'%';
        wrong.push(if turned { b'$' } else { *b })?;
        found = found || turned;
    }
    assert!(rt; found);
    let mut shelf = MemShelf::new(alloc, Vec::new(alloc));
    shelf.add("a.h", header.to_vec(alloc)?)?;
    shelf.add("a.c", wrong)?;
    run_files(&rt, alloc, &mut shelf, PAIR_ROWS, "", "error: NotSource\n")?;
    Ok(())
}

// Each proper prefix of the one file, the other whole.
#[test]
fn files_that_are_cut(rt: HostRuntime) -> Result<(), Fail> {
    let alloc = rt.alloc();
    let mut shelf = compiled(&rt, alloc, HEATER)?;
    let header = shelf.get("a.h").unwrap_or(b"none").to_vec(alloc)?;
    let source = shelf.get("a.c").unwrap_or(b"none").to_vec(alloc)?;
    for k in 0..header.len() {
        shelf.add("a.h", header[..k].to_vec(alloc)?)?;
        run_files(
            &rt,
            alloc,
            &mut shelf,
            "temp\n17\n",
            "",
            "error: NotHeader\n",
        )?;
    }
    shelf.add("a.h", header)?;
    for k in 0..source.len() {
        shelf.add("a.c", source[..k].to_vec(alloc)?)?;
        run_files(
            &rt,
            alloc,
            &mut shelf,
            "temp\n17\n",
            "",
            "error: NotSource\n",
        )?;
    }
    Ok(())
}

// The files of a folder, and the line of `cexec a` over them.
const MISSING: [(&str, &str); 3] = [
    ("b.h", "missing: a.h\n"),
    ("a.c", "missing: a.h\n"),
    ("a.h", "missing: a.c\n"),
];

#[test]
fn missing_files(rt: HostRuntime) -> Result<(), Fail> {
    let alloc = rt.alloc();
    for (file, want) in MISSING {
        let mut shelf = MemShelf::new(alloc, Vec::new(alloc));
        shelf.add(file, SMALL_HEADER.as_bytes().to_vec(alloc)?)?;
        run_files(&rt, alloc, &mut shelf, "k\n1\n", "", want)?;
    }
    Ok(())
}

// 'Long counter': over 262,144 rows no step costs more than the first.
#[test]
fn a_long_execution(rt: HostRuntime) -> Result<(), Fail> {
    let alloc = rt.alloc();
    let mut rows = b"k\n".to_vec(alloc)?;
    for _ in 0..262_144u32 {
        rows.extend_from_slice(b"1\n")?;
    }
    let mut events = Vec::new(alloc);
    for turn in 0..1024u32 {
        events.extend_from_slice(itoa::Buffer::new().format(turn * 256).as_bytes())?;
        events.extend_from_slice(b" t 0\n")?;
    }
    let mut shelf = shelf_of(alloc, SMALL_HEADER, SMALL_SOURCE)?;
    let mut out = MemSink::new(alloc, 65_536, Vec::new(alloc))?;
    let mut line = VecSink::new(alloc);
    let outcome = execute(alloc, "a", &mut shelf, rows, &mut out, &mut line)?;
    assert_eq!(rt; outcome, Outcome::Done);
    assert_eq!(rt; out.taken(), events.as_slice());
    Ok(())
}
