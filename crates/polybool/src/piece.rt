//! A fixed piece of text, an output buffer on the stack: words and numbers are laid in it, and go out together.
//! So laying takes no memory, and a number constant time.

ghost use Rattle.std.specs.Prelude.{◌≡◌, ◌+◌, ◌≤◌, ◌<◌, [], ◌∷◌, ◌++◌, length, decimal, OnOk};
ghost use Rattle.std.specs.Fmt.{signed_decimal};
ghost use Rattle.polybool.specs.Texts.{truth_text};

use crate::digits::lay_number;
use crate::send::{WriteFailed, write_whole};
use std::io::Write;

// How many bytes a piece holds.
const SIZE: usize = 4096;

/// The most bytes that are laid before room is made again.
pub const ROOM: usize = 44;

/// Text that was laid and has not gone out.
#[derive(Clone, Copy)]
pub struct Piece {
    bytes: [u8; SIZE],
    length: usize,
    ghost fits: { length ≤ 4096 },
}

impl Piece {
    ghost use Rattle.polybool.specs.Pieces.{text_of_piece, Lays};

    /// Nothing is laid yet.
    pub fn new() -> Piece
        ensures text { text_of_piece result ≡ [] }
        ensures empty { result.length ≡ 0 }
    {
        Piece {
            bytes: [0; SIZE],
            length: 0,
        }
    }

    /// Sends what was laid, where there may be no room for more.
    pub fn make_room<W: Write>(&mut self, writer: &mut W) -> Result<(), WriteFailed>
        ensures lays { Lays (W.contents writer.old) (W.contents writer.new) (text_of_piece self.old) (text_of_piece self.new) [] result }
        ensures room { OnOk result (self.new.length + ROOM ≤ SIZE) }
    {
        if self.length > SIZE - ROOM {
            return self.send(writer);
        }
        Ok(())
    }

    /// Sends what was laid.
    pub fn send<W: Write>(&mut self, writer: &mut W) -> Result<(), WriteFailed>
        ensures lays { Lays (W.contents writer.old) (W.contents writer.new) (text_of_piece self.old) (text_of_piece self.new) [] result }
        ensures empty { OnOk result (self.new.length ≡ 0) }
    {
        write_whole(writer, &self.bytes[..self.length])?;
        self.length = 0;
        Ok(())
    }

    /// Lays a byte.
    pub fn push(&mut self, byte: u8)
        requires { self.old.length < SIZE }
        ensures text { text_of_piece self.new ≡ text_of_piece self.old ++ byte ∷ [] }
        ensures length { self.new.length ≡ self.old.length + 1 }
    {
        self.bytes[self.length] = byte;
        self.length += 1;
    }

    /// Lays a word.
    pub fn push_word(&mut self, word: &[u8])
        requires { self.old.length + length word.now ≤ SIZE }
        ensures text { text_of_piece self.new ≡ text_of_piece self.old ++ word.now }
        ensures length { self.new.length ≡ self.old.length + length word.now }
    {
        for byte in word {
            self.push(*byte);
        }
    }

    /// Lays a word, and whether it holds.
    pub fn push_fact(&mut self, word: &[u8], holds: bool)
        requires { self.old.length + length word.now + 5 ≤ SIZE }
        ensures text { text_of_piece self.new ≡ text_of_piece self.old ++ (word.now ++ truth_text holds) }
        ensures length { self.new.length ≤ self.old.length + length word.now + 5 }
    {
        self.push_word(word);
        self.push_word(if holds { b"true" } else { b"false" });
    }

    /// Lays a number with its sign.
    pub fn push_signed(&mut self, n: i64)
        requires { self.old.length + 21 ≤ SIZE }
        ensures text { text_of_piece self.new ≡ text_of_piece self.old ++ signed_decimal n }
        ensures length { self.new.length ≤ self.old.length + 21 }
    {
        if n < 0 {
            self.push(b'-');
        }
        self.push_decimal(n.unsigned_abs());
    }

    /// Lays a count.
    pub fn push_count(&mut self, n: usize)
        requires { self.old.length + 20 ≤ SIZE }
        ensures text { text_of_piece self.new ≡ text_of_piece self.old ++ decimal n }
        ensures length { self.new.length ≤ self.old.length + 20 }
    {
        self.push_decimal(n as u64);
    }

    // Lays the digits of a number.
    fn push_decimal(&mut self, n: u64)
        requires { self.old.length + length (decimal n) ≤ SIZE }
        ensures text { text_of_piece self.new ≡ text_of_piece self.old ++ decimal n }
        ensures length { self.new.length ≡ self.old.length + length (decimal n) }
    {
        self.length = lay_number(&mut self.bytes, self.length, n);
    }
}
