//! Regions of drawn triangles: the answer winds round each triangle as its colour says, shape by shape, and passes each link once.

ghost use Rattle.std.specs.Prelude.{◌≤ℤ◌, neg_ℤ, pos};

use contour_walk::borders::Border;
use contour_walk::contour_direction::ContourDirection::{self, Clockwise, CounterClockwise};
use plane_base::fault::Fault;
use plane_base::path::{IntPath, IntShapes};
use plane_base::point::IntPoint;
use plane_base::range::all_contours_in_range;
use plane_base::segment::XSegment;
use reference::shapes::answer_slowly;
use reference::walks::all_links_in_range;
use reference::windings::contour_winding_at;
use std::alloc::Global;

// So many cells stand side by side, and as many above one another.
const SIDE: i32 = 5;

const COLUMNS: u8 = 5;

// A square cell of 6 by 6, cut by a diagonal that rises or falls. The colours are those below and above the diagonal.
#[derive(Clone, Copy, PartialEq, Eq)]
struct Cell {
    rises: bool,
    low: bool,
    high: bool,
}

const EMPTY: Cell = Cell {
    rises: true,
    low: false,
    high: false,
};

// Dice that look random, the same in each run.
#[derive(Drop)]
struct Dice {
    state: u64,
}

impl Dice {
    // Whether a number from 0 to 7 lies below the bound.
    fn is_below(&mut self, bound: u64) -> bool {
        self.state ^= self.state << 13;
        self.state ^= self.state >> 7;
        self.state ^= self.state << 17;
        self.state % 8 < bound
    }

    // Cells of which about `share` of eight triangles are filled.
    fn cells(&mut self, alloc: Global, share: u64) -> Result<Vec<Cell>, Fault> {
        let mut cells = Vec::new(alloc);
        for _ in 0..SIDE * SIDE {
            cells.push(Cell {
                rises: self.is_below(4),
                low: self.is_below(share),
                high: self.is_below(share),
            })?;
        }
        Ok(cells)
    }
}

// The cell in this column and row. Outside all is empty.
fn cell_at(cells: &[Cell], column: i32, row: i32) -> Cell {
    if column < 0 || SIDE <= column || row < 0 || SIDE <= row {
        return EMPTY;
    }
    match cells.get((column * SIDE + row) as usize) {
        None => EMPTY,
        Some(cell) => *cell,
    }
}

// The colour at the cell's left side.
fn left_of(cell: Cell) -> bool {
    if cell.rises { cell.high } else { cell.low }
}

// The colour at the cell's right side.
fn right_of(cell: Cell) -> bool {
    if cell.rises { cell.low } else { cell.high }
}

// Adds a link between two corners of cells, where the colours above and below differ.
fn add_link(
    links: &mut Vec<Border<i32>>,
    from: (i32, i32),
    to: (i32, i32),
    above: bool,
    below: bool,
) -> Result<(), Fault>
    requires from_x { (pos 0 ≤ℤ from.0) × (from.0 ≤ℤ pos 100) }
    requires from_y { (pos 0 ≤ℤ from.1) × (from.1 ≤ℤ pos 100) }
    requires to_x { (pos 0 ≤ℤ to.0) × (to.0 ≤ℤ pos 100) }
    requires to_y { (neg_ℤ (pos 1) ≤ℤ to.1) × (to.1 ≤ℤ pos 100) }
{
    if above == below {
        return Ok(());
    }
    let (x, y) = from;
    let (u, v) = to;
    let edge = XSegment {
        a: IntPoint::new(6 * x, 6 * y),
        b: IntPoint::new(6 * u, 6 * v),
    };
    links.push(Border { edge, above })?;
    Ok(())
}

// The links between triangles of different colours, in order.
fn links_between(alloc: Global, cells: &[Cell]) -> Result<Vec<Border<i32>>, Fault> {
    let mut links = Vec::new(alloc);
    for x in 0..COLUMNS + 1 {
        for y in 0..COLUMNS + 1 {
            add_links_from(&mut links, cells, i32::from(x), i32::from(y))?;
        }
    }
    Ok(links)
}

// Adds the links that start at the lower left corner of a cell.
fn add_links_from(links: &mut Vec<Border<i32>>, cells: &[Cell], x: i32, y: i32) -> Result<(), Fault>
    requires x { (pos 0 ≤ℤ x) × (x ≤ℤ pos 10) }
    requires y { (pos 0 ≤ℤ y) × (y ≤ℤ pos 10) }
{
    let here = cell_at(cells, x, y);
    let before = cell_at(cells, x - 1, y);
    let below = cell_at(cells, x, y - 1);
    add_link(links, (x, y), (x, y + 1), right_of(before), left_of(here))?;
    if !below.rises {
        add_link(links, (x, y), (x + 1, y - 1), below.high, below.low)?;
    }
    add_link(links, (x, y), (x + 1, y), here.low, below.high)?;
    if here.rises {
        add_link(links, (x, y), (x + 1, y + 1), here.high, here.low)?;
    }
    Ok(())
}

// How often contours wind round a point. There is no answer where they are out of range.
fn winding(contours: &[IntPath<i32>], x: i32, y: i32) -> Option<i128> {
    if !all_contours_in_range(contours) {
        return None;
    }
    Some(contour_winding_at(contours, i64::from(x), i64::from(y), 1))
}

// Whether one shape winds once round the point where it is filled, and else none.
fn is_filled_by_one(shapes: &IntShapes<i32>, x: i32, y: i32, filled: bool, once: i128) -> bool {
    let mut found = false;
    for shape in &shapes.shapes {
        let around = winding(&shape.contours, x, y);
        if around == Some(once) {
            if found {
                return false;
            }
            found = true;
        } else if around != Some(0) {
            return false;
        }
    }
    found == filled
}

// Whether the shapes fill just the filled triangles, each shape for itself.
fn fills(shapes: &IntShapes<i32>, cells: &[Cell], once: i128) -> bool {
    for x in 0..COLUMNS {
        for y in 0..COLUMNS {
            if !is_filled(shapes, cells, i32::from(x), i32::from(y), once) {
                return false;
            }
        }
    }
    true
}

// Whether the shapes fill just the filled triangles of a cell.
fn is_filled(shapes: &IntShapes<i32>, cells: &[Cell], x: i32, y: i32, once: i128) -> bool
    requires x { (pos 0 ≤ℤ x) × (x ≤ℤ pos 10) }
    requires y { (pos 0 ≤ℤ y) × (y ≤ℤ pos 10) }
{
    let cell = cell_at(cells, x, y);
    let (low, high) = if cell.rises { (4, 2) } else { (2, 4) };
    is_filled_by_one(shapes, 6 * x + low, 6 * y + 2, cell.low, once)
        && is_filled_by_one(shapes, 6 * x + high, 6 * y + 4, cell.high, once)
}

// How many points all contours have.
fn count_points(shapes: &IntShapes<i32>) -> usize {
    let mut count = 0_usize;
    for shape in &shapes.shapes {
        for contour in &shape.contours {
            count = count.wrapping_add(contour.points.len());
        }
    }
    count
}

// Whether the answer of links passes each of them once, and it and its corners fill just the filled triangles.
fn is_answered(
    alloc: Global,
    output: ContourDirection,
    links: &[Border<i32>],
    cells: &[Cell],
    once: i128,
) -> Result<bool, Fault> {
    if !all_links_in_range(links) {
        return Ok(false);
    }
    let whole = answer_slowly(alloc, output, true, links)?;
    let is_whole = count_points(&whole) == links.len() && fills(&whole, cells, once);
    let corners = answer_slowly(alloc, output, false, links)?;
    Ok(is_whole && fills(&corners, cells, once))
}

// Whether the boundary of drawn triangles, of which this share is filled, is answered in both directions.
fn are_answered(alloc: Global, dice: &mut Dice, share: u64) -> Result<bool, Fault> {
    let cells = dice.cells(alloc, share)?;
    let links = links_between(alloc, &cells)?;
    let is_answered_one_way = is_answered(alloc, CounterClockwise, &links, &cells, 1) == Ok(true);
    let is_answered_other_way = is_answered(alloc, Clockwise, &links, &cells, -1) == Ok(true);
    Ok(is_answered_one_way && is_answered_other_way)
}

#[test]
fn fills_drawn_triangles(rt: HostRuntime) {
    let mut dice = Dice { state: 20_001 };
    for round in 0..100_u64 {
        let is_right = are_answered(rt.alloc(), &mut dice, 2 + round % 5);
        assert!(rt; is_right == Ok(true), "round {round}");
    }
}
