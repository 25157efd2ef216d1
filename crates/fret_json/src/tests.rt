// Files, with what they hold or their first fault.
use crate::{ReqFault, ReqFile, requirements};
use std::alloc::Global;
use std::test::Fail;

const THERMO: &str =
    "{\"component\":{\"name\":\"thermo\",\"note\":\"v1\",\"variables\":[\n{\"name\":\"temp\",\"type\":\"int32\"},{\"name\":\"heater\",\"type\":\"bool\"}],\"requirements\":[\n{\"name\":\"r01\",\"formula\":\"temp < 100\"}]}}";

// A file's first fault, with its entry.
fn fault(alloc: Global, text: &str) -> (&'static str, u64) {
    match requirements(alloc, text.as_bytes()) {
        Ok(_) => ("", 0),
        Err(ReqFault::NotJson) => ("NotJson", 0),
        Err(ReqFault::NoComponent) => ("NoComponent", 0),
        Err(ReqFault::BadVariableEntry(n)) => ("BadVariableEntry", n),
        Err(ReqFault::BadRequirementEntry(n)) => ("BadRequirementEntry", n),
        Err(ReqFault::Memory) => ("Memory", 0),
    }
}

const FAULTS: [(&str, &str, u64); 14] = [
    ("[", "NotJson", 0),
    ("", "NotJson", 0),
    ("{} {}", "NotJson", 0),
    ("{\"component\":{},\"component\":1e999}", "NotJson", 0),
    ("{}", "NoComponent", 0),
    ("[1]", "NoComponent", 0),
    (
        "{\"component\":{\"name\":\"bool\",\"variables\":[],\"requirements\":[]}}",
        "NoComponent",
        0,
    ),
    (
        "{\"component\":{\"name\":\"a\",\"variables\":{},\"requirements\":[]}}",
        "NoComponent",
        0,
    ),
    (
        "{\"component\":{\"name\":\"a\",\"variables\":[1],\"requirements\":[1]}}",
        "BadVariableEntry",
        1,
    ),
    (
        "{\"component\":{\"name\":\"a\",\"variables\":[{\"name\":\"x\",\"type\":\"bool\"},{\"name\":\"y\"}],\"requirements\":[1]}}",
        "BadVariableEntry",
        2,
    ),
    (
        "{\"component\":{\"name\":\"a\",\"variables\":[],\"requirements\":[{\"name\":\"r\",\"formula\":1}]}}",
        "BadRequirementEntry",
        1,
    ),
    (
        "{\"component\":{\"name\":\"a\",\"variables\":[],\"requirements\":[]}}",
        "",
        0,
    ),
    (
        "{\"component\":{\"name\":1,\"name\":\"a\",\"variables\":[],\"requirements\":[]}}",
        "",
        0,
    ),
    (
        "{\"component\":{\"name\":\"a\",\"name\":1,\"variables\":[],\"requirements\":[]}}",
        "NoComponent",
        0,
    ),
];

#[test]
fn first_faults(rt: HostRuntime) -> Result<(), Fail> {
    let alloc = rt.alloc();
    for (text, kind, entry) in FAULTS {
        let told = fault(alloc, text);
        assert_eq!(rt; told.0, kind, "{text}");
        assert_eq!(rt; told.1, entry, "{text}");
    }
    Ok(())
}

fn thermo(alloc: Global) -> Result<ReqFile, Fail> {
    match requirements(alloc, THERMO.as_bytes()) {
        Ok(file) => Ok(file),
        Err(_) => Err(Fail::from("refused")),
    }
}

// Unknown keys are passed over, and entries stand in their order.
#[test]
fn a_file(rt: HostRuntime) -> Result<(), Fail> {
    let file = thermo(rt.alloc())?;
    assert!(rt; file.name.bytes() == b"thermo".as_slice());
    let variables = file.variables.as_slice();
    assert_eq!(rt; variables.len(), 2);
    assert!(rt; variables[0].name.bytes() == b"temp".as_slice());
    assert!(rt; variables[0].ty.bytes() == b"int32".as_slice());
    assert!(rt; variables[1].name.bytes() == b"heater".as_slice());
    let requirements = file.requirements.as_slice();
    assert_eq!(rt; requirements.len(), 1);
    assert!(rt; requirements[0].name.bytes() == b"r01".as_slice());
    assert!(rt; requirements[0].formula.bytes() == b"temp < 100".as_slice());
    Ok(())
}
