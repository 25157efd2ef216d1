use super::*;
use sm_io::{Failed, MemSink};
use std::test::Fail;

#[test]
fn texts_go_one_after_another(rt: HostRuntime) -> Result<(), Fail> {
    let alloc = rt.alloc();
    let mut sink = MemSink::new(alloc, 64, Vec::new(alloc))?;
    let mut printer = Printer::new(&mut sink);
    printer.put(b"from ");
    printer.signed(-128);
    printer.put(b" to ");
    printer.number(u64::MAX);
    assert_eq!(rt; printer.outcome(), Ok(()));
    assert_eq!(rt;
        sink.taken(),
        b"from -128 to 18446744073709551615".as_slice()
    );
    Ok(())
}

#[test]
fn nothing_is_written_after_a_fault(rt: HostRuntime) -> Result<(), Fail> {
    let alloc = rt.alloc();
    let mut sink = MemSink::new(alloc, 64, vec![in alloc; 1u64]?)?;
    let mut printer = Printer::new(&mut sink);
    printer.put(b"before");
    printer.put(b"lost");
    printer.number(7);
    assert_eq!(rt; printer.outcome(), Err(Failed));
    assert_eq!(rt; sink.taken(), b"before".as_slice());
    Ok(())
}

#[test]
fn a_part_is_written_before_the_room_ends(rt: HostRuntime) -> Result<(), Fail> {
    let alloc = rt.alloc();
    let mut sink = MemSink::new(alloc, 8, Vec::new(alloc))?;
    let mut printer = Printer::new(&mut sink);
    printer.put(b"before");
    printer.put(b"after");
    printer.signed(7);
    assert_eq!(rt; printer.outcome(), Err(Failed));
    assert_eq!(rt; sink.taken(), b"beforeaf".as_slice());
    Ok(())
}
