// What `demo` writes.
use super::tests::words;
use crate::{Outcome, Tool, run_tool};
use sm_io::{MemShelf, MemSink, MemSource, VecSink};
use std::test::Fail;

const LINE: &str = "demo: 200 streams, 10000 steps, 285713 events, storage 4300, need 3900\n";

// The room of the output, the answer, and the line on the error sink.
const RUNS: [(usize, Outcome, &str); 3] = [
    (100, Outcome::Done, ""),
    (71, Outcome::Done, ""),
    (20, Outcome::WriteFault, "write fault\n"),
];

// 'Demo'. The output takes the line, or what it has room for.
#[test]
fn demo_writes_its_line(rt: HostRuntime) -> Result<(), Fail> {
    let alloc = rt.alloc();
    let words = words(alloc, &["demo", "200", "10000"])?;
    for (room, want, line) in RUNS {
        let mut shelf = MemShelf::new(alloc, Vec::new(alloc));
        let mut input = MemSource::new(Vec::new(alloc), 1, Vec::new(alloc));
        let mut out = MemSink::new(alloc, room, Vec::new(alloc))?;
        let mut err = VecSink::new(alloc);
        let outcome = run_tool(
            alloc,
            Tool::Copilot,
            &words,
            &mut input,
            &mut out,
            &mut err,
            &mut shelf,
        );
        assert_eq!(rt; outcome, want, "room {room}");
        assert_eq!(rt; err.taken(), line.as_bytes());
        assert_eq!(rt; LINE.as_bytes().starts_with(out.taken()), true);
        assert_eq!(rt; out.taken().len() == LINE.len(), line.is_empty());
    }
    Ok(())
}
