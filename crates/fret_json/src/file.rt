// What a requirement file holds.

use sm_io::{Name, Seq, Text};

/// A variable: its name and the word of its type, as the file has them.
#[derive(Drop)]
pub struct ReqVar {
    pub name: Text,
    pub ty: Text,
}

/// A requirement: its name and its formula, as the file has them.
#[derive(Drop)]
pub struct Req {
    pub name: Text,
    pub formula: Text,
}

/// The component's name, its variables and its requirements, in the order of the file.
#[derive(Drop)]
pub struct ReqFile {
    pub name: Name,
    pub variables: Seq<ReqVar>,
    pub requirements: Seq<Req>,
}
