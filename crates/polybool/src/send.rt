//! Bytes are written to a writer whole, or it is told that a write failed. Degenerate cases: a write that takes
//! nothing has failed.

ghost use Rattle.std.specs.Prelude.{◌≡◌, ℕ, ◌<◌, List, [], ◌++◌, length, MatchResult};
ghost use Rattle.std.specs.Io.KnownBytes.{Appends};

use std::io::Write;

/// A write or a flush failed, or a write took nothing.
#[derive(Clone, Copy, Debug, PartialEq, Eq)]
pub struct WriteFailed;

/// Writes all the bytes. Where a write fails, some are left.
pub fn write_whole<W: Write>(writer: &mut W, bytes: &[u8]) -> Result<(), WriteFailed>
    ensures { (sent unsent : List ℕ) × (bytes.now ≡ sent ++ unsent)
        × Appends (W.contents writer.old) (W.contents writer.new) sent × MatchResult result (λ _. unsent ≡ []) (λ _. 0 < length unsent) }
{
    let mut rest = bytes;
    while !rest.is_empty() {
        match writer.write(rest) {
            Ok(0) | Err(_) => return Err(WriteFailed),
            Ok(count) => rest = &rest[count..],
        }
    }
    Ok(())
}
