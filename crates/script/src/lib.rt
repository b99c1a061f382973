// The plain data that all layers share, declared once: the node record, values, refusals and answers, and the limits of a script.
#![tactic(auto)]

ghost use Rattle.std.specs.Prelude.{◌≡◌};
ghost use Rattle.script.specs.Answers.{number_of, place_of, kind_of, bits_of};
ghost use Rattle.script.specs.Limits.{script_of, size_of, with_node, with_entry};

pub mod table;

// A node of a script: its kind, 0 to 14, and three operands, of which the unused ones are 0.
#[derive(Clone, Copy, PartialEq, Eq)]
pub struct Node {
    pub kind: u32,
    pub a: u32,
    pub b: u32,
    pub c: u32,
}

// What evaluation gives and a cell holds: a 32-bit word, a truth, or the number of a cell.
#[derive(Clone, Copy)]
pub enum Value {
    Word(u32),
    Truth(bool),
    Location(u32),
}

impl Value {
    // Its kind: 0 word, 1 truth, 2 location.
    pub fn kind(self) -> u32
        ensures { result ≡ kind_of self }
    {
        match self {
            Value::Word(_) => 0,
            Value::Truth(_) => 1,
            Value::Location(_) => 2,
        }
    }

    // Its 32 bits.
    pub fn bits(self) -> u32
        ensures { result ≡ bits_of self }
    {
        match self {
            Value::Word(w) => w,
            Value::Truth(b) => b as u32,
            Value::Location(l) => l,
        }
    }
}

// Why an input is turned down, with the line or the node where it has a place. `number` gives its number.
#[derive(Clone, Copy)]
pub enum Refusal {
    BadLine(u32),
    TooManyAt(u32),
    TooMany,
    NoNode,
    BadOperand(u32),
    NotUsedOnce(u32),
    WrongType(u32),
    UnknownVariable(u32),
    TooManyReferences(u32),
    InconsistentLog(u32),
    PathTypesDiffer(u32),
    TooManyPaths(u32),
    TooManyAtoms(u32),
    TooDeep(u32),
    TextTooLong,
    TableTooSmall,
    BadTypeCode,
    BadValues,
    BadCells,
    OutputTooShort,
}

impl Refusal {
    // The number of this refusal.
    pub fn number(self) -> u32
        ensures { result ≡ number_of self }
    {
        match self {
            Refusal::BadLine(_) => 1,
            Refusal::TooManyAt(_) => 2,
            Refusal::TooMany => 2,
            Refusal::NoNode => 3,
            Refusal::BadOperand(_) => 4,
            Refusal::NotUsedOnce(_) => 5,
            Refusal::WrongType(_) => 6,
            Refusal::UnknownVariable(_) => 7,
            Refusal::TooManyReferences(_) => 8,
            Refusal::InconsistentLog(_) => 9,
            Refusal::PathTypesDiffer(_) => 10,
            Refusal::TooManyPaths(_) => 11,
            Refusal::TooManyAtoms(_) => 12,
            Refusal::TooDeep(_) => 13,
            Refusal::TextTooLong => 31,
            Refusal::TableTooSmall => 32,
            Refusal::BadTypeCode => 33,
            Refusal::BadValues => 34,
            Refusal::BadCells => 35,
            Refusal::OutputTooShort => 36,
        }
    }

    // The line or the node of this refusal, if it has one.
    pub fn place(self) -> Option<u32>
        ensures { result ≡ place_of self }
    {
        match self {
            Refusal::BadLine(i) => Some(i),
            Refusal::TooManyAt(i) => Some(i),
            Refusal::TooMany => None,
            Refusal::NoNode => None,
            Refusal::BadOperand(i) => Some(i),
            Refusal::NotUsedOnce(i) => Some(i),
            Refusal::WrongType(i) => Some(i),
            Refusal::UnknownVariable(i) => Some(i),
            Refusal::TooManyReferences(i) => Some(i),
            Refusal::InconsistentLog(i) => Some(i),
            Refusal::PathTypesDiffer(i) => Some(i),
            Refusal::TooManyPaths(i) => Some(i),
            Refusal::TooManyAtoms(i) => Some(i),
            Refusal::TooDeep(i) => Some(i),
            Refusal::TextTooLong => None,
            Refusal::TableTooSmall => None,
            Refusal::BadTypeCode => None,
            Refusal::BadValues => None,
            Refusal::BadCells => None,
            Refusal::OutputTooShort => None,
        }
    }
}

// How a run ends: with a value and the used count, or at the node of the error state, with the used count.
#[derive(Clone, Copy)]
pub enum Ended {
    Gave(Value, u32),
    Failed(u32, u32),
}

// A script by its counts. Made by `empty`, `of`, `with_node` and `with_entry`, both are within the limits.
#[derive(Clone, Copy)]
pub struct Script {
    pub nodes: usize,
    pub entries: usize,
}

impl Script {
    // At most so many nodes and entries.
    pub const NODES: usize = 128;

    pub const ENTRIES: usize = 16;
    // At most so many bytes of text.
    pub const BYTES: usize = 8192;
    // At most so many `sym` on any way from the root.
    pub const NESTING: usize = 4;
    // The largest number of a `var`: as many variables as entries and nodes together, less one.
    pub const VARIABLE: u32 = 143;
    // The largest word.
    pub const WORD: u32 = 4294967295;
    // At most so many references in a type, and so the largest code of a type.
    pub const REFERENCES: u32 = 15;

    pub const TYPE: u32 = 31;

    // The script with no line yet.
    pub fn empty() -> Script
        ensures { result ≡ size_of 0 0 }
    {
        Script {
            nodes: 0,
            entries: 0,
        }
    }

    // The script with these counts, if they are within the limits.
    pub fn of(nodes: usize, entries: usize) -> Option<Script>
        ensures { result ≡ script_of nodes entries }
    {
        if nodes <= Script::NODES && entries <= Script::ENTRIES {
            return Some(Script { nodes, entries });
        }
        None
    }

    // One node more.
    pub fn with_node(self) -> Option<Script>
        ensures { result ≡ with_node self }
    {
        if self.nodes < Script::NODES {
            return Some(Script {
                nodes: self.nodes + 1,
                ..self
            });
        }
        None
    }

    // One entry more.
    pub fn with_entry(self) -> Option<Script>
        ensures { result ≡ with_entry self }
    {
        if self.entries < Script::ENTRIES {
            return Some(Script {
                entries: self.entries + 1,
                ..self
            });
        }
        None
    }
}
