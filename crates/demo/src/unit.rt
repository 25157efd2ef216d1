// The size of a demonstration's program.
ghost use Rattle.std.specs.Prelude.{◌≡◌, ◌≤◌, IfOk};
ghost use Rattle.stream_core.specs.Term.{trees};
ghost use Rattle.stream_core.specs.Lower.{lowered_spec};
ghost use Rattle.demo.specs.Demonstration.{demo_spec};
ghost use Rattle.demo.specs.Figures.{demo_need, demo_storage};

use ring_codegen::generate;
use sm_io::Name;
use std::alloc::{AllocError, Global};
use stream_lib::Plain;

/// The static storage of a program in bytes, and the greatest number of operators that one of its steps can meet.
#[derive(Clone, Copy)]
pub(crate) struct Sizes {
    pub(crate) storage: u64,
    pub(crate) need: u64,
}

/// Those of the program of a demonstration.
pub(crate) fn weigh(alloc: Global, plain: &Plain, streams: u32) -> Result<Sizes, AllocError>
    requires { trees plain.now ≡ lowered_spec (demo_spec streams) }
    ensures { IfOk result (λ s. (s.storage ≡ demo_storage streams) × (s.need ≡ demo_need streams)) }
{
    let name = Name::new(Vec::from_slice(alloc, b"demo")?);
    let unit = generate(alloc, plain, &name)?;
    Ok(Sizes {
        storage: u64::from(unit.storage),
        need: u64::from(unit.need),
    })
}
