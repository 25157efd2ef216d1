// A demonstration, and its line.
use crate::{demonstrate, write_figures};
use sm_io::VecSink;
use std::test::Fail;

const LINE: &str = "demo: 200 streams, 10000 steps, 285713 events, storage 4300, need 3900\n";

// Two hundred streams are stepped ten thousand times.
#[test]
fn figures_are_told(rt: HostRuntime) -> Result<(), Fail> {
    let alloc = rt.alloc();
    let figures = demonstrate(alloc, 200, 10_000)?;
    let mut out = VecSink::new(alloc);
    assert!(rt; write_figures(200, 10_000, &figures, &mut out).is_ok());
    assert_eq!(rt; out.taken(), LINE.as_bytes());
    Ok(())
}
