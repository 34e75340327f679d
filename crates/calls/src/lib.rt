// The calls of document 01: `specs/` says what each gives and leaves; here are the codes of the calls and what code
// answers.
#![tactic(auto)]

ghost use Rattle.std.specs.Prelude.{◌≡◌};
ghost use Rattle.calls.specs.Answers as spec;
ghost use Rattle.calls.specs.Codes.{code, Decodes};

use handle::{HANDLE_BYTES, HandleBytes};
use numbers::Number;
use store::{Cluster, Store};

// The codes of the calls: which call is meant.
#[derive(Clone, Copy, Debug, PartialEq, Eq)]
pub enum Code {
    NewCluster = 1,
    DeleteCluster = 2,
    NewSegment = 3,
    DeleteSegment = 4,
    Read = 5,
    Write = 6,
    Weaken = 7,
    Reduce = 8,
    NewPassword = 9,
    Freeze = 10,
    Join = 11,
}

// A code that means no call.
#[derive(Clone, Copy, Debug, PartialEq, Eq)]
pub struct UnknownCode(pub u8);

impl Code {
    // The code itself.
    pub fn byte(self) -> u8
        ensures { result ≡ code self }
    {
        self as u8
    }
}

impl TryFrom<u8> for Code {
    type Error = UnknownCode;

    ghost try_from_gives = { Decodes };

    fn try_from(byte: u8) -> Result<Self, UnknownCode> {
        match byte {
            1 => Ok(Code::NewCluster),
            2 => Ok(Code::DeleteCluster),
            3 => Ok(Code::NewSegment),
            4 => Ok(Code::DeleteSegment),
            5 => Ok(Code::Read),
            6 => Ok(Code::Write),
            7 => Ok(Code::Weaken),
            8 => Ok(Code::Reduce),
            9 => Ok(Code::NewPassword),
            10 => Ok(Code::Freeze),
            11 => Ok(Code::Join),
            _ => Err(UnknownCode(byte)),
        }
    }
}

// What a call done gives: one handle or two, a handle and how many segments it references, or the length that was read. Callers
// read it by `first`, `second`, `count` and `length`, of which the contracts speak.
// Stays: `Nothing` is one of five things that a call gives, and an `Option` around the other four would be taken apart twice.
#[derive(Clone, Copy)]
pub enum Given {
    Nothing,
    Handle(HandleBytes),
    Handles(HandleBytes, HandleBytes),
    Counted(HandleBytes, u8),
    Length(usize),
}

// What a call answers: what it gives, or the number that it is refused with.
pub type Answer = Result<Given, Number>;

// The handle that is not given: no bytes.
fn no_handle() -> HandleBytes
    ensures { result ≡ spec.no_handle }
{
    HandleBytes {
        length: 0,
        bytes: [0; HANDLE_BYTES],
    }
}

impl Given {
    // The first handle given, and the second; of length 0 where there is none.
    pub fn first(&self) -> HandleBytes
        ensures { result ≡ spec.first self.now }
    {
        match self {
            Given::Handle(first) | Given::Handles(first, _) | Given::Counted(first, _) => *first,
            Given::Nothing | Given::Length(_) => no_handle(),
        }
    }

    pub fn second(&self) -> HandleBytes
        ensures { result ≡ spec.second self.now }
    {
        match self {
            Given::Handles(_, second) => *second,
            _ => no_handle(),
        }
    }

    // The count, and the length; 0 where none is told.
    pub fn count(&self) -> u8
        ensures { result ≡ spec.count self.now }
    {
        match self {
            Given::Counted(_, count) => *count,
            _ => 0,
        }
    }

    pub fn length(&self) -> usize
        ensures { result ≡ spec.length self.now }
    {
        match self {
            Given::Length(length) => *length,
            _ => 0,
        }
    }
}

// The records that a call done leaves, and what it gives. A refusal leaves them as they were.
#[derive(Clone, Copy)]
pub struct Done {
    pub store: Store,
    pub given: Given,
}

// The record that a call done leaves of the cluster that it is about, and what it gives. A refusal leaves it as it was.
#[derive(Clone, Copy)]
pub struct Changed {
    pub cluster: Cluster,
    pub given: Given,
}

// A part of the memory: where it begins and where it ends, the first byte behind it. A part of no bytes goes from 0 to 0.
// A look done tells the part that is the segment.
#[derive(Clone, Copy)]
pub struct Part {
    pub from: usize,
    pub to: usize,
}
