// Specifications, and what stands in the C that is written for them.
use super::tests::{COMPILE_A, run};
use crate::{Outcome, Tool};
use sm_io::MemShelf;
use std::alloc::{AllocError, Global};
use std::test::Fail;

const HEATER_HEADER: &str =
    "#ifndef CP_a_H\n#define CP_a_H\n#include <stdint.h>\n#include <stdbool.h>\nenum { cp_storage = 4, cp_need = 1 };\nextern int32_t temp;\nvoid heat(int32_t);\nvoid step(void);\n#endif\n";

const HEATER_SOURCE: &str =
    "#include \"a.h\"\nstatic int32_t cp_c_temp;\nvoid step(void)\n{\n  cp_c_temp = temp;\n  if ((cp_c_temp < 18)) { heat(cp_c_temp); }\n}\n";

const COUNTER_SOURCE: &str =
    "#include \"a.h\"\nstatic uint8_t cp_b_n = 0U;\nvoid step(void)\n{\n  if ((cp_b_n == 0U)) { t(cp_b_n); }\n  uint8_t cp_n_n = ((uint8_t)(((uint32_t)cp_b_n) + ((uint32_t)1U)));\n  cp_b_n = cp_n_n;\n}\n";

// A text, a part of its header, and a part of its source.
const ROWS: [(&str, &str, &str); 11] = [
    (
        "(spec heater\n  (extern temp Int32)\n  (trigger heat (< temp 18:Int32) temp))\n",
        HEATER_HEADER,
        HEATER_SOURCE,
    ),
    (
        "(spec c (stream n Word8 (0:Word8) (+ n 1:Word8)) (trigger t (== n 0:Word8) n))",
        "enum { cp_storage = 1, cp_need = 5 };\n",
        COUNTER_SOURCE,
    ),
    (
        "(spec w (extern w Word16) (trigger t true (* w w)))",
        "void t(uint16_t);\n",
        "((uint16_t)(((uint32_t)cp_c_w) * ((uint32_t)cp_c_w)))",
    ),
    (
        "(spec m (stream s Int64 (-9223372036854775808:Int64) s) (trigger t (== s -9223372036854775808:Int64) s))",
        "void t(int64_t);\n",
        "static int64_t cp_b_s = ((-9223372036854775807LL) - 1LL);\n",
    ),
    (
        "(spec pair (stream x Int32 (1:Int32) (+ x (drop 4 y))) (stream y Int32 (0:Int32 1:Int32 2:Int32 3:Int32 4:Int32) x) (trigger o true x y))",
        "enum { cp_storage = 28, cp_need = 13 };\n",
        "void step(void)\n",
    ),
    (
        "(spec g (struct P (x Int16) (y Int16)) (extern p (array P 3)) (extern i Word32) (trigger t true (field (index p i) x)))",
        "enum { cp_storage = 16, cp_need = 3 };\n",
        "  if (true) { t((cp_ix_P_3(cp_c_p, cp_c_i).x)); }\n",
    ),
    (
        "(spec l (extern p Bool) (extern q Bool) (trigger a true (since p q) (once-in 0 0 q) (historically-in 2 4 p)))",
        "enum { cp_storage = 12, ",
        "void step(void)\n",
    ),
    (
        "(spec v (extern a Word8) (extern b Word8) (extern c Word8) (trigger m true (majority a b c) (agreed a b c) (window-max 2 a) (window-sum 2 a)) (trigger k (clock 2 1)))",
        "enum { cp_storage = 9, ",
        "void step(void)\n",
    ),
    (
        "(spec n (trigger t true -128:Int8 -1:Int64))",
        "enum { cp_storage = 0, cp_need = 4 };\n",
        "  if (true) { t(((-127) - 1), ((-0LL) - 1LL)); }\n",
    ),
    (
        "(spec2 m (extern a Int8) (trigger t (> a 0:Int8) a) (trigger t (< a 5:Int8) 1:Int8))",
        "extern int8_t a;\nvoid t(int8_t);\nvoid step(void);\n",
        "void step(void)\n",
    ),
    (
        "(spec d (stream s Word8 (1:Word8) (drop 0 s)))",
        "enum { cp_storage = 1, ",
        "static uint8_t cp_b_s = 1U;\n",
    ),
];

// Whether a text has these bytes somewhere.
fn has(text: &[u8], part: &str) -> bool {
    text.windows(part.len().max(1))
        .any(|w| w == part.as_bytes())
}

#[test]
fn worked_rows(rt: HostRuntime) -> Result<(), Fail> {
    let alloc = rt.alloc();
    for (text, header, source) in ROWS {
        let mut shelf = MemShelf::new(alloc, Vec::new(alloc));
        shelf.add("a.spec", text.as_bytes().to_vec(alloc)?)?;
        let told = run(alloc, Tool::Copilot, COMPILE_A, &mut shelf)?;
        assert_eq!(rt; told.outcome, Outcome::Done, "{text}");
        assert!(rt; has(shelf.get("a.h").unwrap_or(b"none"), header), "{text}");
        assert!(rt; has(shelf.get("a.c").unwrap_or(b"none"), source), "{text}");
    }
    Ok(())
}

// A trigger of a def that doubles an extern so many times, each by the def before.
fn doubling_defs(alloc: Global, times: u32) -> Result<Vec<u8>, AllocError> {
    let mut text = b"(spec w (extern d0 Word8)".to_vec(alloc)?;
    let mut buffer = itoa::Buffer::new();
    for k in 0..times {
        text.extend_from_slice(b" (def d")?;
        text.extend_from_slice(buffer.format(k + 1).as_bytes())?;
        text.extend_from_slice(b" Word8 (+ d")?;
        text.extend_from_slice(buffer.format(k).as_bytes())?;
        text.extend_from_slice(b" d")?;
        text.extend_from_slice(buffer.format(k).as_bytes())?;
        text.extend_from_slice(b"))")?;
    }
    text.extend_from_slice(b" (trigger t true d")?;
    text.extend_from_slice(buffer.format(times).as_bytes())?;
    text.extend_from_slice(b"))")?;
    Ok(text)
}

// A version 2 stream of so many values.
fn long_stream(alloc: Global, values: u32) -> Result<Vec<u8>, AllocError> {
    let mut text = b"(spec2 l (stream s Bool (true".to_vec(alloc)?;
    for _ in 1..values {
        text.extend_from_slice(b" true")?;
    }
    text.extend_from_slice(b") (drop 65535 s)))")?;
    Ok(text)
}

#[test]
fn doublings(rt: HostRuntime) -> Result<(), Fail> {
    let alloc = rt.alloc();
    for (times, line) in [(10, ""), (11, "error: RootTooHeavy at 321\n")] {
        let mut shelf = MemShelf::new(alloc, Vec::new(alloc));
        shelf.add("a.spec", doubling_defs(alloc, times)?)?;
        let told = run(alloc, Tool::Copilot, COMPILE_A, &mut shelf)?;
        assert_eq!(rt; told.line.taken(), line.as_bytes());
    }
    Ok(())
}

#[test]
fn long_streams(rt: HostRuntime) -> Result<(), Fail> {
    let alloc = rt.alloc();
    for (values, line) in [(65536, ""), (65537, "error: BadForm at 24\n")] {
        let mut shelf = MemShelf::new(alloc, Vec::new(alloc));
        shelf.add("a.spec", long_stream(alloc, values)?)?;
        let told = run(alloc, Tool::Copilot, COMPILE_A, &mut shelf)?;
        assert_eq!(rt; told.line.taken(), line.as_bytes());
    }
    Ok(())
}
