// How steps and sessions end.
use extern_rows::RowFault;

/// Why a step didn't do all.
#[derive(Debug, PartialEq, Eq, Drop)]
pub enum Stop<F> {
    /// It has a fault, and wrote nothing.
    Fault(F),
    /// The sink failed.
    Failed,
}

/// How a session ended.
#[derive(Debug, PartialEq, Eq, Drop)]
pub enum Ending<F> {
    /// Each row was stepped over, and all lines were written.
    Done,
    /// The step of this number, from 0, has a fault.
    Stopped { step: u64, fault: F },
    /// The line of this number, from 1, gives no row.
    BadRow { line: u64, fault: RowFault },
    /// The source failed.
    ReadFault,
    /// The sink failed.
    WriteFault,
    /// Memory ran out.
    NoMemory,
}
