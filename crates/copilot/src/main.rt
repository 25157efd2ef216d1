//! The program `copilot`: its words, the standard streams and the current folder go to the top call.
#![tactic(auto)]

use sm_io::{DirShelf, StdSink, StdSource};
use std::env;
use std::io::{self, ErrorKind, Write};
use std::process::ExitCode;
use tool_top::{Tool, run_tool};

// The words after the program's name; none where one of them isn't UTF-8, which is the words of no command.
fn words(rt: &HostRuntime) -> io::Result<Vec<String>> {
    match env::args(rt) {
        Ok(args) => Ok(args.skip(1).collect(rt.alloc())?),
        Err(e) if e.kind() == ErrorKind::OutOfMemory => Err(e),
        Err(_) => Ok(Vec::new(rt.alloc())),
    }
}

fn main(rt: HostRuntime) -> ExitCode {
    let Ok(words) = words(&rt) else {
        let _ = rt.stderr().write_all(b"no memory\n");
        return ExitCode::from(8);
    };
    let mut input = StdSource::new(rt.reader());
    let mut out = StdSink::new(rt.stdout());
    let mut err = StdSink::new(rt.stderr());
    let mut shelf = DirShelf::new(rt);
    let outcome = run_tool(
        rt.alloc(),
        Tool::Copilot,
        &words,
        &mut input,
        &mut out,
        &mut err,
        &mut shelf,
    );
    ExitCode::from(outcome.code())
}
