use super::*;
use std::test::Fail;

const HEADER: &[u8] =
    b"#ifndef CP_a_H\n#define CP_a_H\n#include <stdint.h>\n#include <stdbool.h>\nenum { cp_storage = 0, cp_need = 0 };\nvoid step(void);\n#endif\n";

const SOURCE: &[u8] = b"#include \"a.h\"\nvoid step(void)\n{\n}\n";

// The least program is read, a header cut off is none, and a blank too many makes it no source.
#[test]
fn least_program(rt: HostRuntime) -> Result<(), Fail> {
    let alloc = rt.alloc();
    assert!(rt; read_unit(alloc, HEADER, SOURCE).is_ok());
    let cut = read_unit(alloc, &HEADER[..40], SOURCE);
    assert!(rt; matches!(cut, Err(ReadUnitFault::NotHeader)));
    let blank = read_unit(alloc, HEADER, b"#include \"a.h\"\nvoid  step(void)\n{\n}\n");
    assert!(rt; matches!(blank, Err(ReadUnitFault::NotSource)));
    Ok(())
}
