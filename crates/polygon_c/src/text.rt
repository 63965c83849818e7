//! What a status says.

ghost use Rattle.std.specs.Prelude.{◌≡◌, ◌≤◌, ◌<◌, ◌++◌, length, drop};
ghost use Rattle.polygon_c.specs.Refusals.{text_of};

use crate::arrays::write;

// What a status says.
fn text(status: u32) -> &'static str
    ensures { result.now ≡ text_of status }
{
    match status {
        0 => "answered",
        1 => "memory was refused",
        2 => "too many contours run along an edge or wind round a point",
        3 => "there would be 2147483648 edges or more",
        4 => "no overlay rule has this number",
        5 => "no fill rule has this number, or its depth is below 1",
        6 => "no strategy has this number",
        7 => "no precision has this number",
        8 => "the lengths don't sum to what they cut",
        9 => "a coordinate is not from -524288 to 524287",
        10 => "an array is too small for the answer",
        11 => "the query has more words than are known",
        12 => "a coordinate is not from -68719476736 to 68719476735",
        13 => "no join has this number, or numbers that are to be kept differ",
        14 => "an edge is neither horizontal nor vertical",
        _ => "no status has this number",
    }
}

/// Writes what a status says over the beginning of an array, where it has room for all of it, and tells how many bytes that are. No
/// byte 0 ends it.
#[unsafe(no_mangle)]
pub extern "C" fn polygon_c_text(status: u32, bytes: &mut [u8]) -> usize
    ensures length { result ≡ length (text_of status) }
    ensures written { result ≤ length bytes.old → bytes.new ≡ text_of status ++ drop result bytes.old }
    ensures unchanged { length bytes.old < result → bytes.new ≡ bytes.old }
{
    let said = text(status).as_bytes();
    if said.len() <= bytes.len() {
        write(said, bytes);
    }
    said.len()
}
