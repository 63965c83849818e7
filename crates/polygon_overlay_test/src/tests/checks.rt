//! Masks that are checked for widths, spaces and enclosures, as the callers of `uses` check them: rows worked out by hand.

use super::words::{contours_from, shapes_from};
use plane_base::fault::Fault;
use plane_base::path::{IntShape, IntShapes};
use row_words::Words;
use std::alloc::Global;
use uses::masks::{enclosure_errors, space_errors, width_errors};

// A mask of contours, which is one shape of them all.
fn mask_from(words: &mut Words<'_>) -> Option<IntShapes<i32>> {
    let contours = contours_from(words);
    let shapes = vec![in words.alloc(); IntShape { contours }].ok()?;
    Some(IntShapes { shapes })
}

// The shapes of a row, or none where it says so.
fn wanted_from(words: &mut Words<'_>) -> Option<IntShapes<i32>> {
    match words.next() {
        "untold" => None,
        word => {
            words.note(word == "told");
            Some(shapes_from(words))
        }
    }
}

// What a row asks for.
fn errors_from(
    alloc: Global,
    words: &mut Words<'_>,
) -> Option<Result<Option<IntShapes<i32>>, Fault>> {
    let kind = words.next();
    let amount = words.coordinate();
    let mask = mask_from(words)?;
    match kind {
        "width" => Some(width_errors(alloc, &mask, amount)),
        "space" => Some(space_errors(alloc, &mask, amount)),
        word => {
            words.note(word == "enclosure");
            let outer = mask_from(words)?;
            Some(enclosure_errors(alloc, &mask, &outer, amount))
        }
    }
}

fn is_checked(alloc: Global, row: &str) -> bool {
    let mut words = Words::of(alloc, row);
    let found = errors_from(alloc, &mut words);
    let wanted = wanted_from(&mut words);
    words.are_read() && found == Some(Ok(wanted))
}

// A row has a width, a space or a distance, the contours of a mask, for an enclosure those of the outer one too, and the shapes that are told.
const ROWS: &str = "\
# a bar 4 wide
width 4 1 4 0 0 4 0 4 20 0 20 told 0
width 5 1 4 0 0 4 0 4 20 0 20 told 1 1 4 0 20 0 0 4 0 4 20
width 1 1 4 0 0 1 0 1 20 0 20 told 0
width 2 1 4 0 0 1 0 1 20 0 20 told 1 1 4 0 20 0 0 1 0 1 20
# a T of bars 5 wide
width 5 1 8 0 10 5 10 5 0 10 0 10 10 15 10 15 15 0 15 told 0
# with a stem 4 wide: of the bar nothing is told
width 5 1 8 0 10 5 10 5 0 9 0 9 10 15 10 15 15 0 15 told 1 1 4 5 10 5 0 9 0 9 10
# two squares that have a corner of 1 by 1 in common: nothing of the neck is told, for squares cover it
width 5 2 4 0 0 10 0 10 10 0 10 4 9 9 19 9 19 19 9 19 told 0
# a neck of 1 between two squares
width 2 1 12 0 0 5 0 5 2 8 2 8 0 13 0 13 5 8 5 8 3 5 3 5 5 0 5 told 1 1 4 5 3 5 2 8 2 8 3
# a gap of 4
space 4 2 4 0 0 10 0 10 10 0 10 4 14 0 24 0 24 10 14 10 told 0
space 5 2 4 0 0 10 0 10 10 0 10 4 14 0 24 0 24 10 14 10 told 1 1 4 10 10 10 0 14 0 14 10
# a notch of 3
space 3 1 8 0 0 13 0 13 10 8 10 8 5 5 5 5 10 0 10 told 0
space 4 1 8 0 0 13 0 13 10 8 10 8 5 5 5 5 10 0 10 told 1 1 4 5 10 5 5 8 5 8 10
# a hole of 2 by 2
space 2 2 4 0 0 10 0 10 10 0 10 4 4 4 4 6 6 6 6 4 told 0
space 3 2 4 0 0 10 0 10 10 0 10 4 4 4 4 6 6 6 6 4 told 1 1 4 4 6 4 4 6 4 6 6
# two squares diagonally apart by 2 and 2: nothing is told
space 5 2 4 0 0 10 0 10 10 0 10 4 12 12 22 12 22 22 12 22 told 0
# a square in another, off its middle
enclosure 2 1 4 4 4 6 4 6 6 4 6 1 4 1 1 8 1 8 9 1 9 told 0
enclosure 3 1 4 4 4 6 4 6 6 4 6 1 4 1 1 8 1 8 9 1 9 told 1 1 4 8 9 8 1 9 1 9 9
# and beside it
enclosure 0 1 4 0 0 2 0 2 2 0 2 1 4 2 0 4 0 4 2 2 2 told 1 1 4 0 2 0 0 2 0 2 2
# nothing has no errors
width 7 0 told 0
space 7 0 told 0
enclosure 7 0 0 told 0
# what can't be checked
width 0 1 4 0 0 4 0 4 20 0 20 untold
space -3 1 4 0 0 4 0 4 20 0 20 untold
enclosure -1 1 4 0 0 4 0 4 20 0 20 0 untold
width 4 1 3 0 0 10 0 10 10 untold
enclosure 1 0 1 3 0 0 10 0 10 10 untold
width 600000 0 untold
width 4 1 4 524280 0 524284 0 524284 1 524280 1 untold
width 3 1 4 524280 0 524284 0 524284 1 524280 1 told 1 1 4 524280 1 524280 0 524284 0 524284 1
";

#[test]
fn checks_rows(rt: HostRuntime) {
    for line in ROWS.lines() {
        if !line.starts_with("#") {
            assert!(rt; is_checked(rt.alloc(), line), "{line}");
        }
    }
}
