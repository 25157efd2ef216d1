// The tools, what a run of one answers, and the status that it ends with.
ghost use Rattle.std.specs.Prelude.{◌≡◌};
ghost use Rattle.tool_top.specs.Codes.{code_of};

use c99_tree::Undefined;
use extern_rows::RowFault;
use stream_types::Hazard;

/// The two programs over the one engine.
#[derive(Clone, Copy, Debug, PartialEq, Eq)]
pub enum Tool {
    Copilot,
    Ogma,
}

/// What a text was refused for. `NotYet` stands for a command or a form that isn't built.
#[derive(Clone, Copy, Debug, PartialEq, Eq)]
pub enum RefusalKind {
    TextTooLong,
    TooManyDecls,
    TooManyWords,
    SpecTooHeavy,
    NotHeader,
    NotSource,
    NotWellFormed,
    NotJson,
    NoComponent,
    BadByte,
    Unbalanced,
    TooDeep,
    BadForm,
    BadName,
    BadLiteral,
    Redeclared,
    Unknown,
    TypeClash,
    NestedArray,
    TypeTooWide,
    DropOfNoBuffer,
    DropTooFar,
    Cycle,
    RootTooHeavy,
    BadVariableEntry,
    BadRequirementEntry,
    BadVariable,
    BadRequirement,
    NotOldLayout,
    BadFormula,
    FormulaTooDeep,
    NotYet,
}

/// A refusal: its kind, the number of the item that it speaks of, from 1, and the byte offset in its text, from 0.
/// A number that the kind doesn't use is 0.
#[derive(Clone, Copy, Debug, PartialEq, Eq)]
pub struct Refusal {
    pub kind: RefusalKind,
    pub item: u64,
    pub at: u64,
}

/// How a run ended. Steps are numbered from 0, and lines from 1.
#[derive(Debug, PartialEq, Eq, Drop)]
pub enum Outcome {
    /// All was done.
    Done,
    /// The text was refused.
    Refused(Refusal),
    /// The words are no command of the tool.
    Usage,
    /// A step of the specification met a hazard.
    Hazard { step: u64, kind: Hazard },
    /// A step of the C program met something that is undefined.
    Undefined { step: u64, kind: Undefined },
    /// A line of the input gave no row. The fault isn't want of memory.
    BadRow { line: u64, fault: RowFault },
    /// A file or the input could not be read.
    ReadFault,
    /// A file or the output could not be written.
    WriteFault,
    /// A file that the command reads is absent.
    Missing,
    /// No memory was found.
    NoMemory,
}

impl Outcome {
    /// The status that the program ends with: 0 for Done, and one number for each other answer.
    pub fn code(&self) -> u8
        ensures { result ≡ code_of self.now }
    {
        match self {
            Outcome::Done => 0,
            Outcome::Refused(_) => 1,
            Outcome::Usage => 2,
            Outcome::Hazard { .. } | Outcome::Undefined { .. } => 3,
            Outcome::BadRow { .. } => 4,
            Outcome::ReadFault => 5,
            Outcome::WriteFault => 6,
            Outcome::Missing => 7,
            Outcome::NoMemory => 8,
        }
    }
}
