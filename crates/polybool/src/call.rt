//! How the program is called: the arguments, read into two arrays on the stack. Degenerate cases: one that is longer than any path,
//! or isn't UTF-8, is none that the program knows.

ghost use Rattle.std.specs.Prelude.{◌≡◌, ◌<◌, ◌↔◌, ◌∷◌, [], ℕ, List, Option, Some, None, drop, IsTrue};
ghost use Rattle.std.specs.List.{slice_get};
ghost use Rattle.std.specs.Io.{WritesAtMost};
ghost use Rattle.polybool.specs.Calls.{IfKnown, IsGiven, IsRead, CallsFor, Ask, IsReadable};

use std::env::FillError;
use std::str;

/// The most bytes of an argument that are read, those of the longest path.
pub const LONGEST: usize = 4096;

/// The arguments that a program is called with.
pub trait Arguments {
    /// All of them, the program's name first, where they are known.
    ghost known: { Self → Option (List (List ℕ)) } = { λ _. None };

    /// Copies the argument of a number to the beginning of these bytes, and tells its length.
    fn argument(&self, number: usize, bytes: &mut [u8]) -> Result<usize, FillError>
        ensures bound { WritesAtMost result bytes.new }
        ensures told { IfKnown (known self.now) (λ all. IsGiven (slice_get all number) result bytes.new) };
}

/// What the arguments ask for.
#[derive(Clone, Copy, Debug, PartialEq, Eq)]
pub enum Call<'a> {
    /// To answer the requests of standard input.
    Input,
    /// To answer the requests of a file.
    File(&'a str),
    /// To tell how the program is called.
    Help,
    /// To tell the version.
    Version,
    /// Nothing that the program knows.
    Unknown,
}

/// Whether coordinates are wide, and what the other arguments ask for. They are read into the two arrays, and no memory is asked for.
pub fn read<'a, A: Arguments>(
    arguments: &A,
    first: &'a mut [u8; LONGEST],
    second: &'a mut [u8; LONGEST],
) -> (bool, Call<'a>)
    ensures { IfKnown (A.known arguments.now) (λ all. CallsFor (drop 1 all) result.0 result.1) }
{
    let is_wide = is_word(arguments, 1, b"--wide");
    let number = if is_wide { 2 } else { 1 };
    (is_wide, read_from(arguments, number, first, second))
}

// What the arguments from this one on ask for.
fn read_from<'a, A: Arguments>(
    arguments: &A,
    number: usize,
    first: &'a mut [u8; LONGEST],
    second: &'a mut [u8; LONGEST],
) -> Call<'a>
    requires { number < 3 }
    ensures { IfKnown (A.known arguments.now) (λ all. Ask (drop number all) result) }
{
    let word = match argument(arguments, number, first) {
        Ok(word) => word,
        Err(FillError::NotPresent) => return Call::Input,
        Err(FillError::TooLong) => return Call::Unknown,
    };
    let path = match argument(arguments, number + 1, second) {
        Ok(path) => path,
        Err(FillError::NotPresent) => return alone(word),
        Err(FillError::TooLong) => return Call::Unknown,
    };
    if word == "--" && is_absent(arguments, number + 2) {
        Call::File(path)
    } else {
        Call::Unknown
    }
}

// What one argument asks for.
fn alone(word: &str) -> Call<'_>
    ensures { IsReadable word.now → Ask (word.now ∷ []) result }
{
    match word {
        "-" | "--" => Call::Input,
        "--help" => Call::Help,
        "--version" => Call::Version,
        path if path.starts_with('-') || path.is_empty() => Call::Unknown,
        path => Call::File(path),
    }
}

// The argument of a number as text. One that is no UTF-8 is taken for one that is too long.
fn argument<'a, A: Arguments>(
    arguments: &A,
    number: usize,
    bytes: &'a mut [u8; LONGEST],
) -> Result<&'a str, FillError>
    ensures { IfKnown (A.known arguments.now) (λ all. IsRead (slice_get all number) result) }
{
    let length = arguments.argument(number, bytes)?;
    match str::from_utf8(&bytes[..length]) {
        Ok(word) => Ok(word),
        Err(_) => Err(FillError::TooLong),
    }
}

// Whether an argument is this word of six bytes.
fn is_word<A: Arguments>(arguments: &A, number: usize, word: &[u8; 6]) -> bool
    ensures { IfKnown (A.known arguments.now) (λ all. IsTrue result ↔ (slice_get all number ≡ Some word.now)) }
{
    let mut bytes = [0; 6];
    match arguments.argument(number, &mut bytes) {
        Ok(length) => bytes[..length] == word[..],
        Err(_) => false,
    }
}

// Whether there are fewer arguments.
fn is_absent<A: Arguments>(arguments: &A, number: usize) -> bool
    ensures { IfKnown (A.known arguments.now) (λ all. IsTrue result ↔ (slice_get all number ≡ None)) }
{
    let mut bytes = [0; 1];
    match arguments.argument(number, &mut bytes) {
        Ok(_) => false,
        Err(FillError::NotPresent) => true,
        Err(FillError::TooLong) => false,
    }
}
