//! Flat buffers of contours and of shapes.

ghost use Rattle.std.specs.Prelude.{◌≡◌, map, reverse, length};
ghost use Rattle.plane_base.specs.Flat.{IsOneRangeOf, parts};

use super::all_answered;
use super::words::{contours_from, points_from};
use plane_base::flat::FlatContoursBuffer;
use plane_base::flat_shapes::FlatShapesBuffer;
use plane_base::path::{IntPath, IntShape, IntShapes};
use plane_base::point::IntPoint;
use row_words::Words;
use std::alloc::Global;
use std::ops::Range;

// Whether a row of a buffer is answered as it says.
fn is_answered(words: &mut Words<'_>) -> bool {
    match words.next() {
        "ranges" => is_formed(words),
        "added" => are_added(words),
        "turned" => is_turned(words),
        "shapes" => has_shapes(words),
        _ => false,
    }
}

fn ranges_from(words: &mut Words<'_>) -> Vec<Range<usize>> {
    let mut ranges = Vec::new(words.alloc());
    for _ in 0..words.count() {
        let start = words.count();
        let end = words.count();
        words.note(ranges.push(start..end).is_ok());
    }
    ranges
}

fn is_formed(words: &mut Words<'_>) -> bool {
    let buffer = FlatContoursBuffer::<i32> {
        points: points_from(words),
        ranges: ranges_from(words),
    };
    let wanted = [words.flag(), words.flag()];
    [buffer.is_well_formed(), buffer.is_single_contour()] == wanted
}

// The points of all contours, one after another.
fn all_points(contours: &[IntPath<i32>], words: &mut Words<'_>) -> Vec<IntPoint<i32>> {
    let mut points = Vec::new(words.alloc());
    for contour in contours {
        words.note(points.extend_from_slice(&contour.points).is_ok());
    }
    points
}

// A buffer to which these contours are added.
fn buffer_of(contours: &[IntPath<i32>], words: &mut Words<'_>) -> FlatContoursBuffer<i32> {
    let mut buffer = FlatContoursBuffer::new(words.alloc());
    for contour in contours {
        words.note(buffer.add_contour(&contour.points).is_ok());
    }
    buffer
}

fn are_added(words: &mut Words<'_>) -> bool {
    let contours = contours_from(words);
    let wanted = FlatContoursBuffer {
        points: all_points(&contours, words),
        ranges: ranges_from(words),
    };
    let mut buffer = buffer_of(&contours, words);
    is_filled(&mut buffer, &wanted, contours.len())
}

// Whether a buffer has all points and ranges of so many contours, is well formed, has one contour alone if one was added, and is emptied.
fn is_filled(
    buffer: &mut FlatContoursBuffer<i32>,
    wanted: &FlatContoursBuffer<i32>,
    contours: usize,
) -> bool {
    *buffer == *wanted
        && buffer.is_well_formed()
        && is_alone(buffer, &wanted.points) == (contours == 1)
        && is_emptied(buffer)
}

// Whether the buffer has one contour alone, of these points.
fn is_alone(buffer: &FlatContoursBuffer<i32>, points: &[IntPoint<i32>]) -> bool {
    buffer.is_single_contour() && *buffer.as_first_contour() == *points
}

// Whether the buffer has a copy like it, and is emptied, with room. The copy is then like it only if it was empty before.
fn is_emptied(buffer: &mut FlatContoursBuffer<i32>) -> bool {
    match buffer.clone() {
        Ok(copy) => {
            copy == *buffer && is_cleared(buffer) && (copy == *buffer) == copy.ranges.is_empty()
        }
        Err(_) => false,
    }
}

fn is_cleared(buffer: &mut FlatContoursBuffer<i32>) -> bool {
    buffer.clear_and_reserve(20, 3).is_ok()
        && buffer.points.is_empty()
        && buffer.ranges.is_empty()
        && buffer.points.capacity() >= 20
        && buffer.ranges.capacity() >= 3
}

// Turns the one contour round.
fn turn_round(buffer: &mut FlatContoursBuffer<i32>)
    requires { IsOneRangeOf (length buffer.old.points.items) buffer.old.ranges.items }
    ensures single { IsOneRangeOf (length buffer.new.points.items) buffer.new.ranges.items }
    ensures ranges { buffer.new.ranges.items ≡ buffer.old.ranges.items }
    ensures turned { parts buffer.new.points.items buffer.new.ranges.items ≡ map reverse (parts buffer.old.points.items buffer.old.ranges.items) }
{
    buffer.as_first_contour_mut().reverse();
}

fn is_turned(words: &mut Words<'_>) -> bool {
    let mut buffer = FlatContoursBuffer {
        points: points_from(words),
        ranges: Vec::new(words.alloc()),
    };
    let start = buffer.points.len();
    let contour = points_from(words);
    let wanted = points_from(words);
    words.note(buffer.add_contour(&contour).is_ok());
    is_turned_to(&mut buffer, start, &wanted)
}

// Whether the buffer's one contour begins at this place, and all points are these once it is turned round.
fn is_turned_to(
    buffer: &mut FlatContoursBuffer<i32>,
    start: usize,
    wanted: &[IntPoint<i32>],
) -> bool {
    if !buffer.is_single_contour() {
        return false;
    }
    turn_round(buffer);
    *buffer.points == *wanted && buffer.ranges[..] == [start..wanted.len()][..]
}

// Whether a new buffer has the room that is asked for, and is well formed.
fn has_room(alloc: Global) -> bool {
    match FlatShapesBuffer::<i32>::with_capacity(alloc, 4, 2, 1) {
        Ok(buffer) => {
            buffer.points.capacity() >= 4
                && buffer.contour_ranges.capacity() >= 2
                && buffer.shape_ranges.capacity() >= 1
                && buffer.is_well_formed()
        }
        Err(_) => false,
    }
}

fn shapes_from(words: &mut Words<'_>) -> IntShapes<i32> {
    let mut shapes = Vec::new(words.alloc());
    for _ in 0..words.count() {
        let contours = contours_from(words);
        words.note(shapes.push(IntShape { contours }).is_ok());
    }
    IntShapes { shapes }
}

fn has_shapes(words: &mut Words<'_>) -> bool {
    let buffer = FlatShapesBuffer {
        points: points_from(words),
        contour_ranges: ranges_from(words),
        shape_ranges: ranges_from(words),
    };
    let wanted = words.flag();
    if wanted {
        is_copied(&buffer) && gives_shapes(&buffer, &shapes_from(words))
    } else {
        !buffer.is_well_formed()
    }
}

fn is_copied(buffer: &FlatShapesBuffer<i32>) -> bool {
    match buffer.clone() {
        Ok(copy) => copy == *buffer,
        Err(_) => false,
    }
}

fn gives_shapes(buffer: &FlatShapesBuffer<i32>, wanted: &IntShapes<i32>) -> bool {
    if !buffer.is_well_formed() {
        return false;
    }
    match buffer.to_shapes(*buffer.points.allocator()) {
        Ok(shapes) => shapes == *wanted,
        Err(_) => false,
    }
}

const ROWS: &str = "\
# a buffer of these points and ranges: whether it is well formed, and whether it has one contour alone
ranges 5 0 0 1 0 2 0 3 0 4 0 0 true false
ranges 5 0 0 1 0 2 0 3 0 4 0 1 0 5 true true
ranges 5 0 0 1 0 2 0 3 0 4 0 1 5 5 true true
ranges 5 0 0 1 0 2 0 3 0 4 0 2 0 2 2 5 true false
ranges 5 0 0 1 0 2 0 3 0 4 0 2 1 4 0 3 true false
ranges 5 0 0 1 0 2 0 3 0 4 0 1 0 6 false false
ranges 5 0 0 1 0 2 0 3 0 4 0 1 3 2 false false
ranges 5 0 0 1 0 2 0 3 0 4 0 2 0 2 6 6 false false

# contours added one after another, and what the ranges are then
added 0 0
added 1 4 0 0 4 0 4 4 0 4 1 0 4
added 2 4 0 0 4 0 4 4 0 4 3 7 7 8 7 7 8 2 0 4 4 7

# the points that a buffer has before its one contour, that contour, and all points once it is turned round
turned 1 -1 -1 3 0 0 4 0 0 3 4 -1 -1 0 3 4 0 0 0

# a buffer of these points, ranges of contours and ranges of shapes: whether it is well formed, and then its shapes; there are two squares,
# a hole in the first, a shape without contours, and a point that no contour has
shapes 12 -5 -5 0 0 9 0 9 9 0 9 2 2 2 4 4 2 20 0 21 0 21 1 20 1 3 1 5 5 8 8 12 3 0 2 2 2 2 3 true 3 2 4 0 0 9 0 9 9 0 9 3 2 2 2 4 4 2 0 1 4 \
20 0 21 0 21 1 20 1
shapes 0 0 0 true 0
# a range of contours, and one of points, beyond the last
shapes 12 -5 -5 0 0 9 0 9 9 0 9 2 2 2 4 4 2 20 0 21 0 21 1 20 1 3 1 5 5 8 8 12 4 0 2 2 2 2 3 3 4 false
shapes 12 -5 -5 0 0 9 0 9 9 0 9 2 2 2 4 4 2 20 0 21 0 21 1 20 1 4 1 5 5 8 8 12 12 13 3 0 2 2 2 2 3 false
";

#[test]
fn answers_rows_of_buffers(rt: HostRuntime) {
    all_answered(&rt, ROWS, is_answered);
    assert!(rt; has_room(rt.alloc()));
}
