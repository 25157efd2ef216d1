// The run of a demonstration, and what it finds.
ghost use Rattle.std.specs.Prelude.{◌≡◌, ◌≤◌, IfOk};
ghost use Rattle.stream_core.specs.Term.{trees};
ghost use Rattle.stream_core.specs.Lower.{lowered_spec};
ghost use Rattle.demo.specs.Demonstration.{demo_spec};
ghost use Rattle.demo.specs.Figures.{calls_below, figures_of};

use crate::build::make_spec;
use crate::unit::{Sizes, weigh};
use recursion_check::{Sound, SoundFault, sound};
use sm_io::Steps;
use std::alloc::{AllocError, Global};
use std::marker::Brand;
use std::sync::ledger::{Blank, Ledger};
use stream_interp::Monitor;
use stream_lib::{Plain, lower};

/// What a demonstration finds: the calls of all its steps, the static storage of its specification in bytes, and the
/// greatest number of operators that one step of its program can meet.
#[derive(Clone, Copy, Debug, PartialEq, Eq)]
pub struct Figures {
    pub events: u64,
    pub storage: u64,
    pub need: u64,
}

// The specification, which has no fault.
fn demo(alloc: Global, streams: u32) -> Result<Sound, AllocError>
    requires { streams ≤ 1000 }
    ensures { IfOk result (λ s. trees s ≡ demo_spec streams) }
{
    match sound(alloc, make_spec(alloc, streams)?) {
        Ok(sound) => Ok(sound),
        Err((_, SoundFault::Memory)) => Err(AllocError),
        Err(_) => unreachable!(),
    }
}

// The calls of so many steps over rows without values.
fn count<L: Ledger>(
    alloc: Global,
    plain: &Plain,
    streams: u32,
    steps: u32,
    blank: Blank,
) -> Result<u64, AllocError>
    requires plain { trees plain.now ≡ lowered_spec (demo_spec streams) }
    requires streams { streams ≤ 1000 }
    requires steps { steps ≤ 1000000 }
    requires name { blank.name ≡ L.name }
    requires parts { blank.parts ≡ L.parts }
    requires one { blank.parts ≡ 1 }
    ensures { IfOk result (λ events. events ≡ calls_below streams steps steps) }
{
    let mut taken: Steps<L> = Steps::new(blank);
    let mut monitor = Monitor::start(alloc, plain)?;
    let mut events = 0;
    let mut n = 0;
    while n < steps {
        match monitor.step(&[], &mut taken) {
            Ok(()) => {}
            Err(_) => unreachable!(),
        }
        events += monitor.events().len() as u64;
        n += 1;
    }
    Ok(events)
}

/// Makes a specification of so many streams, from 1 to 1,000, steps it so many times, at most 1,000,000, and weighs its
/// program.
pub fn demonstrate(alloc: Global, streams: u32, steps: u32) -> Result<Figures, AllocError>
    requires streams { streams ≤ 1000 }
    requires steps { steps ≤ 1000000 }
    ensures { IfOk result (λ f. f ≡ figures_of streams steps) }
{
    let sound = demo(alloc, streams)?;
    let plain = lower(alloc, &sound)?;
    let Sizes { storage, need } = weigh(alloc, &plain, streams)?;
    let events = count::<Brand>(alloc, &plain, streams, steps, Blank::new(1))?;
    Ok(Figures {
        events,
        storage,
        need,
    })
}
