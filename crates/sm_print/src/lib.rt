//! A printer over a sink, which stays silent after its first fault.
//! In: bytes and numbers, one after another, and any sink. Out: the sink took them in this order without memory; or a
//! prefix of them, and then the fault.
//! What a call prints is `Prints` of specs/Prints.antt; `Printer::outcome` answers at the end.
#![tactic(auto)]

mod printer;

pub use printer::Printer;

#[cfg(test)]
mod tests;
