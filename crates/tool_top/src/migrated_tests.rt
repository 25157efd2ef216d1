// Programs of the old layout, and what `migrate` makes of their files.
use super::tests::run;
use crate::{Outcome, Tool};
use sm_io::MemShelf;
use std::alloc::{AllocError, Global};
use std::test::Fail;

const OLD_HEADER: &str =
    "#ifndef CP_c_H\n#define CP_c_H\n#include <stdint.h>\n#include <stdbool.h>\nenum { cp_storage = 5, cp_need = 17 };\nvoid t(uint8_t);\nvoid step(void);\n#endif\n";

const OLD_SOURCE: &str =
    "#include \"c.h\"\nstatic uint8_t cp_b_n[1] = { 0U };\nstatic uint32_t cp_i_n = 0U;\nvoid step(void)\n{\n  if ((cp_b_n[((cp_i_n + 0U) % 1U)] == 0U)) { t(cp_b_n[((cp_i_n + 0U) % 1U)]); }\n  uint8_t cp_n_n = ((uint8_t)(((uint32_t)cp_b_n[((cp_i_n + 0U) % 1U)]) + ((uint32_t)1U)));\n  cp_b_n[cp_i_n] = cp_n_n;\n  cp_i_n = ((cp_i_n + 1U) % 1U);\n}\n";

const NEW_HEADER: &str =
    "#ifndef CP_d_H\n#define CP_d_H\n#include <stdint.h>\n#include <stdbool.h>\nenum { cp_storage = 1, cp_need = 5 };\nvoid t(uint8_t);\nvoid step(void);\n#endif\n";

const NEW_SOURCE: &str =
    "#include \"d.h\"\nstatic uint8_t cp_b_n = 0U;\nvoid step(void)\n{\n  if ((cp_b_n == 0U)) { t(cp_b_n); }\n  uint8_t cp_n_n = ((uint8_t)(((uint32_t)cp_b_n) + ((uint32_t)1U)));\n  cp_b_n = cp_n_n;\n}\n";

// The old source, with `% 0U` in place of its first `% 1U`.
const OTHER_MODULUS: &str =
    "#include \"c.h\"\nstatic uint8_t cp_b_n[1] = { 0U };\nstatic uint32_t cp_i_n = 0U;\nvoid step(void)\n{\n  if ((cp_b_n[((cp_i_n + 0U) % 0U)] == 0U)) { t(cp_b_n[((cp_i_n + 0U) % 1U)]); }\n  uint8_t cp_n_n = ((uint8_t)(((uint32_t)cp_b_n[((cp_i_n + 0U) % 1U)]) + ((uint32_t)1U)));\n  cp_b_n[cp_i_n] = cp_n_n;\n  cp_i_n = ((cp_i_n + 1U) % 1U);\n}\n";

const MIGRATE: &[&str] = &["migrate", "c", "d"];

fn shelf_of(alloc: Global, source: &str) -> Result<MemShelf, AllocError> {
    let mut shelf = MemShelf::new(alloc, Vec::new(alloc));
    shelf.add("c.h", OLD_HEADER.as_bytes().to_vec(alloc)?)?;
    shelf.add("c.c", source.as_bytes().to_vec(alloc)?)?;
    Ok(shelf)
}

// 'Migration'.
#[test]
fn migration(rt: HostRuntime) -> Result<(), Fail> {
    let alloc = rt.alloc();
    let mut shelf = shelf_of(alloc, OLD_SOURCE)?;
    let told = run(alloc, Tool::Copilot, MIGRATE, &mut shelf)?;
    assert_eq!(rt; told.outcome, Outcome::Done);
    assert_eq!(rt; told.line.taken(), b"".as_slice());
    assert_eq!(rt; shelf.get("d.h").unwrap_or(b"none"), NEW_HEADER.as_bytes());
    assert_eq!(rt; shelf.get("d.c").unwrap_or(b"none"), NEW_SOURCE.as_bytes());
    Ok(())
}

// A source, and the line that tells why it is not migrated.
const REFUSED: [(&str, &str); 3] = [
    (OTHER_MODULUS, "error: NotOldLayout 1\n"),
    (NEW_SOURCE, "error: NotSource\n"),
    ("", "error: NotSource\n"),
];

#[test]
fn refused_migrations(rt: HostRuntime) -> Result<(), Fail> {
    let alloc = rt.alloc();
    for (source, line) in REFUSED {
        let mut shelf = shelf_of(alloc, source)?;
        let told = run(alloc, Tool::Copilot, MIGRATE, &mut shelf)?;
        assert_eq!(rt; told.outcome.code(), 1, "{line}");
        assert_eq!(rt; told.line.taken(), line.as_bytes());
        assert!(rt; shelf.get("d.h").is_none(), "{line}");
        assert!(rt; shelf.get("d.c").is_none(), "{line}");
    }
    Ok(())
}

// The number of the shelf's call that fails, the line, and whether the header of the new program is there.
const FAILING: [(u64, &str, bool); 4] = [
    (0, "read fault\n", false),
    (1, "read fault\n", false),
    (2, "write fault\n", false),
    (3, "write fault\n", true),
];

#[test]
fn failing_folders(rt: HostRuntime) -> Result<(), Fail> {
    let alloc = rt.alloc();
    for (call, line, header) in FAILING {
        let mut shelf = MemShelf::new(alloc, vec![in alloc; call]?);
        shelf.add("c.h", OLD_HEADER.as_bytes().to_vec(alloc)?)?;
        shelf.add("c.c", OLD_SOURCE.as_bytes().to_vec(alloc)?)?;
        let told = run(alloc, Tool::Copilot, MIGRATE, &mut shelf)?;
        assert_eq!(rt; told.line.taken(), line.as_bytes(), "call {call}");
        assert_eq!(rt; shelf.get("d.h").is_some(), header, "call {call}");
        assert!(rt; shelf.get("d.c").is_none(), "call {call}");
    }
    Ok(())
}
