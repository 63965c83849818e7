//! Answers for small boundaries, worked out by hand.

use super::are_answered;
use super::words::{direction_from, links_from, shapes_from};
use row_words::Words;
use std::alloc::Global;

// Whether a row is answered as it says, in all its words.
fn is_answered(alloc: Global, row: &str) -> bool {
    let mut words = Words::of(alloc, row);
    let output = direction_from(&mut words);
    let kept = words.next();
    words.note(kept == "points" || kept == "corners");
    let keeps_all = kept == "points";
    let links = links_from(&mut words);
    let wanted = shapes_from(&mut words);
    words.are_read() && are_answered(alloc, output, keeps_all, &links, &wanted)
}

// A row has a direction, whether corners alone or all points are answered, links, and the shapes of the answer. A list stands behind the
// number of its members.
const ROWS: &str = "\
# squares side by side are joined
CounterClockwise corners 6 0 0 0 10 false 0 0 10 0 true 0 10 10 10 false 10 0 20 0 true 10 10 20 10 false 20 0 20 10 true 1 1 4 0 10 0 0 20 0 20 10
CounterClockwise points 6 0 0 0 10 false 0 0 10 0 true 0 10 10 10 false 10 0 20 0 true 10 10 20 10 false 20 0 20 10 true 1 1 6 0 10 0 0 10 0 20 0 20 10 10 10
# the square 0 0 .. 10 10 without the square 3 3 .. 7 7
CounterClockwise points 8 0 0 0 10 false 0 0 10 0 true 0 10 10 10 false 3 3 3 7 true 3 3 7 3 false 3 7 7 7 true 7 3 7 7 false 10 0 10 10 \
true 1 2 4 0 10 0 0 10 0 10 10 4 3 3 3 7 7 7 7 3
# both sides of a bow tie
CounterClockwise corners 6 0 0 0 10 false 0 0 5 5 true 0 10 5 5 false 5 5 10 0 true 5 5 10 10 false 10 0 10 10 true 2 1 3 0 10 0 0 5 5 1 3 10 10 5 5 10 0
# the frame 1 0 .. 4 5 round the window 2 1 .. 3 4, and the bar 0 2 .. 5 3 across both
CounterClockwise corners 20 0 2 0 3 false 0 2 1 2 true 0 3 1 3 false 1 0 1 2 false 1 0 4 0 true 1 3 1 5 false 1 5 4 5 false 2 1 2 2 true 2 \
1 3 1 false 2 2 3 2 true 2 3 2 4 true 2 3 3 3 false 2 4 3 4 true 3 1 3 2 false 3 3 3 4 false 4 0 4 2 true 4 2 5 2 true 4 3 4 5 true 4 3 5 3 \
false 5 2 5 3 true 1 3 12 0 3 0 2 1 2 1 0 4 0 4 2 5 2 5 3 4 3 4 5 1 5 1 3 4 2 1 2 2 3 2 3 1 4 2 3 2 4 3 4 3 3
# five squares, each within the one before, filled in turn
CounterClockwise corners 20 0 0 0 100 false 0 0 100 0 true 0 100 100 100 false 10 10 10 90 true 10 10 90 10 false 10 90 90 90 true 20 20 20 \
80 false 20 20 80 20 true 20 80 80 80 false 30 30 30 70 true 30 30 70 30 false 30 70 70 70 true 40 40 40 60 false 40 40 60 40 true 40 60 60 \
60 false 60 40 60 60 true 70 30 70 70 false 80 20 80 80 true 90 10 90 90 false 100 0 100 100 true 3 2 4 0 100 0 0 100 0 100 100 4 10 10 10 \
90 90 90 90 10 2 4 20 80 20 20 80 20 80 80 4 30 30 30 70 70 70 70 30 1 4 40 60 40 40 60 40 60 60
# an outline that runs clockwise
Clockwise corners 4 0 0 0 10 false 0 0 10 0 true 0 10 10 10 false 10 0 10 10 true 1 1 4 0 0 0 10 10 10 10 0
# two islands
CounterClockwise points 8 0 0 0 10 false 0 0 10 0 true 0 10 10 10 false 10 0 10 10 true 100 100 100 110 false 100 100 110 100 true 100 110 \
110 110 false 110 100 110 110 true 2 1 4 0 10 0 0 10 0 10 10 1 4 100 110 100 100 110 100 110 110
";

#[test]
fn answers_rows(rt: HostRuntime) {
    for line in ROWS.lines() {
        if !line.starts_with("#") {
            assert!(rt; is_answered(rt.alloc(), line), "{line}");
        }
    }
}
