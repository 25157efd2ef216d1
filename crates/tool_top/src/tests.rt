use super::*;
use sm_io::{MemShelf, MemSource, VecSink};
use std::alloc::{AllocError, Global};
use std::test::Fail;

const DOOR: &str = "(spec door\n  (extern ajar Bool)\n  (trigger chime ajar))\n";

const DOOR_HEADER: &str =
    "#ifndef CP_door_H\n#define CP_door_H\n#include <stdint.h>\n#include <stdbool.h>\nenum { cp_storage = 1, cp_need = 0 };\nextern bool ajar;\nvoid chime(void);\nvoid step(void);\n#endif\n";

const DOOR_SOURCE: &str =
    "#include \"door.h\"\nstatic bool cp_c_ajar;\nvoid step(void)\n{\n  cp_c_ajar = ajar;\n  if (cp_c_ajar) { chime(); }\n}\n";

const EMPTY_HEADER: &str =
    "#ifndef CP_a_H\n#define CP_a_H\n#include <stdint.h>\n#include <stdbool.h>\nenum { cp_storage = 0, cp_need = 0 };\nvoid step(void);\n#endif\n";

const EMPTY_SOURCE: &str = "#include \"a.h\"\nvoid step(void)\n{\n}\n";

const COPILOT_USAGE: &str =
    "usage: copilot compile SPEC NAME | interpret SPEC | cexec NAME | demo K T | migrate OLD NEW\n";

const OGMA_USAGE: &str =
    "usage: ogma standalone REQS SPEC | cfs REQS NAME | ros REQS NAME | fprime REQS NAME\n";

pub fn words(alloc: Global, texts: &[&str]) -> Result<Vec<String>, AllocError> {
    let mut words = Vec::new(alloc);
    for text in texts {
        words
            .push(String::from_str(alloc, text)?)
            .map_err(|_| AllocError)?;
    }
    Ok(words)
}

// What a run over some files answers, and its line.
#[derive(Drop)]
pub struct Told {
    pub outcome: Outcome,
    pub line: VecSink,
}

pub fn run(
    alloc: Global,
    tool: Tool,
    texts: &[&str],
    shelf: &mut MemShelf,
) -> Result<Told, AllocError> {
    let words = words(alloc, texts)?;
    let mut input = MemSource::new(Vec::new(alloc), 1, Vec::new(alloc));
    let mut out = VecSink::new(alloc);
    let mut line = VecSink::new(alloc);
    let outcome = run_tool(alloc, tool, &words, &mut input, &mut out, &mut line, shelf);
    Ok(Told { outcome, line })
}

// The number of the shelf's call that fails, the answer, its status and its line.
const DOOR_RUNS: [(u64, Outcome, u8, &str); 4] = [
    (9, Outcome::Done, 0, ""),
    (0, Outcome::ReadFault, 5, "read fault\n"),
    (1, Outcome::WriteFault, 6, "write fault\n"),
    (2, Outcome::WriteFault, 6, "write fault\n"),
];

#[test]
fn door(rt: HostRuntime) -> Result<(), Fail> {
    let alloc = rt.alloc();
    for (call, want, code, line) in DOOR_RUNS {
        let mut shelf = MemShelf::new(alloc, vec![in alloc; call]?);
        shelf.add("door.spec", DOOR.as_bytes().to_vec(alloc)?)?;
        let told = run(
            alloc,
            Tool::Copilot,
            &["compile", "door.spec", "door"],
            &mut shelf,
        )?;
        assert_eq!(rt; told.outcome, want, "call {call}");
        assert_eq!(rt; told.outcome.code(), code);
        assert_eq!(rt; told.line.taken(), line.as_bytes());
        let header = shelf.get("door.h").unwrap_or(b"none");
        let source = shelf.get("door.c").unwrap_or(b"none");
        let whole_header = if call > 1 { DOOR_HEADER } else { "none" };
        let whole_source = if call > 2 { DOOR_SOURCE } else { "none" };
        assert_eq!(rt; header, whole_header.as_bytes(), "call {call}");
        assert_eq!(rt; source, whole_source.as_bytes(), "call {call}");
        assert_eq!(rt; shelf.starved(), 0);
    }
    Ok(())
}

// A text that `compile a.spec a` refuses, and the line that tells why.
const REFUSED: [(&str, &str); 18] = [
    ("(spec t (trigger a b))", "error: Unknown at 19\n"),
    (
        "(spec t (trigger x 1:Int8) (stream y))",
        "error: BadForm at 27\n",
    ),
    (
        "(((((((((((((((((((((((((((((((((((((((((((((((((((((((((((((((((",
        "error: TooDeep at 64\n",
    ),
    (
        "((((((((((((((((((((((((((((((((((((((((((((((((((((((((((((((((",
        "error: Unbalanced at 64\n",
    ),
    ("(spec f (extern x Float))", "error: BadName at 18\n"),
    (
        "(spec f (extern x Bool) (def x Bool true))",
        "error: Redeclared at 29\n",
    ),
    (
        "(spec f (observer o 256:Word8))",
        "error: BadLiteral at 20\n",
    ),
    ("(spec f \x07)", "error: BadByte at 8\n"),
    ("", "error: BadForm at 0\n"),
    (
        "(spec t (extern x Bool) (trigger x x))",
        "error: Redeclared at 33\n",
    ),
    (
        "(spec t (extern x Int8) (trigger a (+ x 1:Int16)))",
        "error: TypeClash at 35\n",
    ),
    ("(spec t (trigger a 1:Int8))", "error: TypeClash at 8\n"),
    (
        "(spec d (stream s Word8 (1:Word8) (drop 1 s)))",
        "error: DropTooFar at 34\n",
    ),
    (
        "(spec r (def z Bool a) (def a Bool b) (def b Bool c) (def c Bool a))",
        "error: Cycle at 23\n",
    ),
    (
        "(spec a (struct P (x (array Word8 1024)) (y Bool)))",
        "error: TypeTooWide at 8\n",
    ),
    (
        "(spec a (struct P (x Int8) (x Int8)))",
        "error: Redeclared at 28\n",
    ),
    (
        "(spec2 m (extern a Int8) (trigger t true a) (trigger t true 1:Int16))",
        "error: TypeClash at 44\n",
    ),
    (
        "(spec m (extern a Int8) (trigger t true a) (trigger t true 1:Int16))",
        "error: Redeclared at 52\n",
    ),
];

#[test]
fn first_faults(rt: HostRuntime) -> Result<(), Fail> {
    let alloc = rt.alloc();
    for (text, line) in REFUSED {
        let mut shelf = MemShelf::new(alloc, Vec::new(alloc));
        shelf.add("a.spec", text.as_bytes().to_vec(alloc)?)?;
        let told = run(alloc, Tool::Copilot, COMPILE_A, &mut shelf)?;
        assert_eq!(rt; told.line.taken(), line.as_bytes(), "{text}");
        assert_eq!(rt; told.outcome.code(), 1, "{text}");
        assert!(rt; shelf.get("a.h").is_none(), "{text}");
        assert!(rt; shelf.get("a.c").is_none(), "{text}");
    }
    Ok(())
}

pub const COMPILE_A: &[&str] = &["compile", "a.spec", "a"];

// 'Empty', and the same behind a comment and with one in it.
#[test]
fn empty(rt: HostRuntime) -> Result<(), Fail> {
    let alloc = rt.alloc();
    for text in ["(spec a)", "; c\n(spec a ; x (\n)"] {
        let mut shelf = MemShelf::new(alloc, Vec::new(alloc));
        shelf.add("a.spec", text.as_bytes().to_vec(alloc)?)?;
        let told = run(alloc, Tool::Copilot, COMPILE_A, &mut shelf)?;
        assert_eq!(rt; told.outcome, Outcome::Done, "{text}");
        let header = shelf.get("a.h").unwrap_or(b"none");
        let source = shelf.get("a.c").unwrap_or(b"none");
        assert_eq!(rt; header, EMPTY_HEADER.as_bytes(), "{text}");
        assert_eq!(rt; source, EMPTY_SOURCE.as_bytes(), "{text}");
    }
    Ok(())
}

// Words over a shelf with the one file `a.spec`, the status and the line.
struct Row {
    tool: Tool,
    words: &'static [&'static str],
    code: u8,
    line: &'static str,
}

const WORDS: [Row; 9] = [
    Row {
        tool: Tool::Copilot,
        words: &["compile", "a.spec"],
        code: 2,
        line: COPILOT_USAGE,
    },
    Row {
        tool: Tool::Copilot,
        words: &["compile", "nope.spec", "m"],
        code: 7,
        line: "missing: nope.spec\n",
    },
    Row {
        tool: Tool::Copilot,
        words: &["compile", "a.h", "a"],
        code: 2,
        line: COPILOT_USAGE,
    },
    Row {
        tool: Tool::Copilot,
        words: &["compile", "../a.spec", "a"],
        code: 2,
        line: COPILOT_USAGE,
    },
    Row {
        tool: Tool::Copilot,
        words: &["interpret", "nope.spec"],
        code: 7,
        line: "missing: nope.spec\n",
    },
    Row {
        tool: Tool::Copilot,
        words: &["demo", "1000", "1000001"],
        code: 2,
        line: COPILOT_USAGE,
    },
    Row {
        tool: Tool::Copilot,
        words: &["demo", "0", "1"],
        code: 2,
        line: COPILOT_USAGE,
    },
    Row {
        tool: Tool::Ogma,
        words: &["compile", "a.spec", "a"],
        code: 2,
        line: OGMA_USAGE,
    },
    Row {
        tool: Tool::Ogma,
        words: &["cfs", "one.json", "one"],
        code: 1,
        line: "error: NotYet at 0\n",
    },
];

#[test]
fn words_and_files(rt: HostRuntime) -> Result<(), Fail> {
    let alloc = rt.alloc();
    for case in &WORDS {
        let mut shelf = MemShelf::new(alloc, Vec::new(alloc));
        shelf.add("a.spec", b"(spec a)".to_vec(alloc)?)?;
        let told = run(alloc, case.tool, case.words, &mut shelf)?;
        assert_eq!(rt; told.outcome.code(), case.code, "{}", case.line);
        assert_eq!(rt; told.line.taken(), case.line.as_bytes());
        assert!(rt; shelf.get("a.h").is_none(), "{}", case.line);
    }
    Ok(())
}

// The text of a specification of so many externs.
fn externs(alloc: Global, count: u32) -> Result<Vec<u8>, AllocError> {
    let mut text = b"(spec a".to_vec(alloc)?;
    for k in 0..count {
        text.extend_from_slice(b" (extern x")?;
        text.extend_from_slice(itoa::Buffer::new().format(k).as_bytes())?;
        text.extend_from_slice(b" Bool)")?;
    }
    text.extend_from_slice(b")")?;
    Ok(text)
}

#[test]
fn too_many_declarations(rt: HostRuntime) -> Result<(), Fail> {
    let alloc = rt.alloc();
    for (count, line) in [(4096, ""), (4097, "error: TooManyDecls\n")] {
        let mut shelf = MemShelf::new(alloc, Vec::new(alloc));
        shelf.add("a.spec", externs(alloc, count)?)?;
        let told = run(alloc, Tool::Copilot, COMPILE_A, &mut shelf)?;
        assert_eq!(rt; told.line.taken(), line.as_bytes());
        assert_eq!(rt; shelf.get("a.c").is_some(), line.is_empty());
    }
    Ok(())
}

#[test]
fn a_text_that_is_too_long(rt: HostRuntime) -> Result<(), Fail> {
    let alloc = rt.alloc();
    let mut shelf = MemShelf::new(alloc, Vec::new(alloc));
    shelf.add("a.spec", Vec::from_elem(alloc, b' ', 1_048_577)?)?;
    let told = run(alloc, Tool::Copilot, COMPILE_A, &mut shelf)?;
    assert_eq!(rt; told.outcome.code(), 1);
    assert_eq!(rt; told.line.taken(), b"error: TextTooLong\n".as_slice());
    Ok(())
}
