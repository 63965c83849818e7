//! The line that is being read: its bytes so far, or why they are not held. Degenerate cases: a line of more than 1,048,576
//! bytes, or one that finds no room, is read on and not held; a carriage return at its end is no part of its text. A byte takes
//! amortised constant time.

ghost use Rattle.std.specs.Prelude.{◌≡◌, ◌≢◌, ℕ, List, [], ◌++◌, ◌≤◌, length, ◌↔◌, IsTrue, MatchResult};
ghost use Rattle.polybool.specs.Lines.{longest, text_of};
ghost use Rattle.polybool.specs.Held.{Holds, IsUnheld, FindsNoRoom};

use crate::refusal::Refusal;
use std::alloc::Global;

// The most bytes that a line may have before its end, a carriage return counted.
const LONGEST: usize = 1_048_576;

// What is held of the line so far.
#[derive(Clone, Copy, Debug, PartialEq, Eq)]
enum State {
    // All of it.
    Whole,
    // Nothing, since it is too long.
    Dropped,
    // Nothing, since a growth was refused.
    Unheld,
}

/// The line that is being read: its bytes so far, or why they are not held.
#[derive(Debug, Drop)]
pub struct Line {
    bytes: Vec<u8>,
    state: State,
}

impl Line {
    /// No byte came yet.
    pub fn new(alloc: Global) -> Line
        ensures { Holds result [] }
    {
        Line {
            bytes: Vec::new(alloc),
            state: State::Whole,
        }
    }

    /// Adds the next bytes of the line. A line that was held finds no room only where it is short enough, they don't fit and the
    /// list cannot grow. One that is too long, or found no room, stays so.
    pub fn add(&mut self, piece: &[u8])
        ensures holds { (bytes : List ℕ) → Holds self.old bytes → Holds self.new (bytes ++ piece.now) }
        ensures full { self.old.state ≡ State.Whole → self.new.state ≡ State.Unheld → FindsNoRoom self.old piece.now }
        ensures stays { self.old.state ≢ State.Whole → self.new.state ≡ self.old.state }
    {
        match self.state {
            State::Whole => self.store(piece),
            State::Dropped | State::Unheld => {}
        }
    }

    // Adds the next bytes to those that are held.
    fn store(&mut self, piece: &[u8])
        requires { self.old.state ≡ State.Whole }
        ensures holds { (bytes : List ℕ) → Holds self.old bytes → Holds self.new (bytes ++ piece.now) }
        ensures full { self.new.state ≡ State.Unheld → FindsNoRoom self.old piece.now }
    {
        if piece.len() > LONGEST || self.bytes.len() > LONGEST - piece.len() {
            self.state = State::Dropped;
        } else if self.bytes.extend_from_slice(piece).is_err() {
            self.state = State::Unheld;
        }
    }

    /// Begins the next line.
    pub fn begin(&mut self)
        ensures { Holds self.new [] }
    {
        self.bytes.clear();
        self.state = State::Whole;
    }

    /// The text of the line: its bytes without the carriage return that ends it, where they are held.
    pub fn text(&self) -> Result<&[u8], Refusal>
        ensures { (bytes : List ℕ) → Holds self.now bytes → MatchResult result
            (λ text. (self.now.state ≡ State.Whole) × (length bytes ≤ longest) × (text.now ≡ text_of bytes)) (IsUnheld self.now.state bytes) }
    {
        match self.state {
            State::Whole => Ok(without_return(self.bytes.as_slice())),
            State::Dropped => Err(Refusal::TooLong),
            State::Unheld => Err(Refusal::Memory),
        }
    }

    /// Whether no byte of the line came yet.
    pub fn is_empty(&self) -> bool
        ensures { (bytes : List ℕ) → Holds self.now bytes → IsTrue result ↔ (bytes ≡ []) }
    {
        match self.state {
            State::Whole => self.bytes.is_empty(),
            State::Dropped | State::Unheld => false,
        }
    }
}

// The bytes without the carriage return that ends them.
fn without_return(bytes: &[u8]) -> &[u8]
    ensures { result.now ≡ text_of bytes.now }
{
    match bytes.split_last() {
        Some((last, text)) => { if *last == b'\r' { text } else { bytes } }
        None => bytes,
    }
}
