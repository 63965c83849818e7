//! Points in contours of many edges, and in shapes that a locator keeps: maps of which a line of code tells what lies inside.

use super::location::{are_in_range, in_locator, in_shapes};
use super::made::shape_of;
use super::{OTHER, SQUARE};
use plane_base::fault::Fault;
use plane_base::path::{IntPath, IntShape, IntShapes};
use plane_base::point::IntPoint;
use plane_base::range::is_in_range;
use polygon_overlay::point_location::PointLocator;
use std::alloc::Global;

// ---- points on edges, too

fn keep(alloc: Global, shape: IntShape<i32>) -> Result<PointLocator<i32>, Fault> {
    let shapes = IntShapes {
        shapes: Vec::from_array(alloc, [shape])?,
    };
    if !are_in_range(&shapes.shapes) {
        return Err(Fault::Failed);
    }
    PointLocator::new(alloc, &shapes)
}

fn contains(kept: &PointLocator<i32>, x: i32, y: i32) -> Option<bool> {
    let point = IntPoint::new(x, y);
    if !is_in_range(point) {
        return None;
    }
    Some(kept.contains(point))
}

fn is_on_edge(kept: &PointLocator<i32>, x: i32, y: i32) -> Option<bool> {
    let point = IntPoint::new(x, y);
    if !is_in_range(point) {
        return None;
    }
    Some(kept.is_on_edge(point))
}

// A rectangle, 10 units high, that has a corner at each unit along its lower side.
fn strip(alloc: Global, width: u8) -> Result<IntShape<i32>, Fault> {
    let mut points = Vec::new(alloc);
    for x in 0..width {
        points.push(IntPoint::new(i32::from(x), 0))?;
    }
    points.push(IntPoint::new(i32::from(width), 0))?;
    points.push(IntPoint::new(i32::from(width), 10))?;
    points.push(IntPoint::new(0, 10))?;
    shape_of(alloc, &points)
}

// Whether the point lies inside: on the left and on the upper side, too, but at none of their ends on the other two.
fn is_in_strip(x: i32, y: i32, width: u8) -> bool {
    x >= 0 && x < i32::from(width) && y > 0 && y <= 10
}

fn is_on_strip(x: i32, y: i32, width: u8) -> bool {
    let right = i32::from(width);
    let is_in_box = x >= 0 && x <= right && y >= 0 && y <= 10;
    is_in_box && (x == 0 || x == right || y == 0 || y == 10)
}

// Whether each point of the rectangle is told, and of a frame round it.
fn are_told(kept: &PointLocator<i32>, width: u8) -> bool {
    for column in 0..20_u8 {
        for row in 0..13_u8 {
            let x = i32::from(column) - 1;
            let y = i32::from(row) - 1;
            let is_told = contains(kept, x, y) == Some(is_in_strip(x, y, width))
                && is_on_edge(kept, x, y) == Some(is_on_strip(x, y, width));
            if !is_told {
                return false;
            }
        }
    }
    true
}

fn tells_strip(alloc: Global, width: u8) -> Result<bool, Fault> {
    let shape = strip(alloc, width)?;
    let kept = keep(alloc, shape)?;
    Ok(are_told(&kept, width))
}

// Of 8, 9, 16 and 17 corners.
#[test]
fn keeps_strips(rt: HostRuntime) {
    for width in [5_u8, 6, 13, 14] {
        assert!(rt; tells_strip(rt.alloc(), width) == Ok(true));
    }
}

// ---- many edges

// Points, each with whether it lies inside.
#[derive(Drop)]
struct Asked {
    points: Vec<IntPoint<i32>>,
    inside: Vec<bool>,
}

fn ask_nothing(alloc: Global) -> Asked {
    Asked {
        points: Vec::new(alloc),
        inside: Vec::new(alloc),
    }
}

fn ask(asked: &mut Asked, x: i32, y: i32, is_inside: bool) -> Result<(), Fault> {
    asked.points.push(IntPoint::new(x, y))?;
    asked.inside.push(is_inside)?;
    Ok(())
}

// Whether the points are told, all at once and by a locator.
fn is_told(alloc: Global, shapes: &IntShapes<i32>, asked: &Asked) -> Result<bool, Fault> {
    let at_once = in_shapes(alloc, shapes, &asked.points)?;
    let one_by_one = in_locator(alloc, shapes, &asked.points)?;
    let wanted = asked.inside.as_slice();
    Ok(at_once.as_slice() == wanted && one_by_one.as_slice() == wanted)
}

fn one_shape(alloc: Global, shape: IntShape<i32>) -> Result<IntShapes<i32>, Fault> {
    Ok(IntShapes {
        shapes: Vec::from_array(alloc, [shape])?,
    })
}

// A comb: its back lies from x -2 to 0, and its teeth, 100 units long, begin at each fourth y and are two units wide. Or its mirror image, whose teeth are
// vertical.
fn comb(alloc: Global, teeth: u8, is_vertical: bool) -> Result<IntShape<i32>, Fault> {
    let mut points = Vec::new(alloc);
    points.push(placed(-2, 0, is_vertical))?;
    for tooth in 0..teeth {
        let low = 4 * i32::from(tooth);
        points.push(placed(100, low, is_vertical))?;
        points.push(placed(100, low + 2, is_vertical))?;
        points.push(placed(0, low + 2, is_vertical))?;
        points.push(placed(0, low + 4, is_vertical))?;
    }
    points.push(placed(-2, 4 * i32::from(teeth), is_vertical))?;
    shape_of(alloc, &points)
}

fn placed(x: i32, y: i32, is_vertical: bool) -> IntPoint<i32> {
    if is_vertical {
        IntPoint::new(y, x)
    } else {
        IntPoint::new(x, y)
    }
}

fn ask_at(asked: &mut Asked, point: IntPoint<i32>, is_inside: bool) -> Result<(), Fault> {
    ask(asked, point.x, point.y, is_inside)
}

// Points in each tooth, behind it, beside it, and in the back.
fn ask_comb(alloc: Global, teeth: u8, is_vertical: bool) -> Result<Asked, Fault> {
    let mut asked = ask_nothing(alloc);
    for tooth in 0..teeth {
        let low = 4 * i32::from(tooth);
        ask_at(&mut asked, placed(50, low + 1, is_vertical), true)?;
        ask_at(&mut asked, placed(50, low + 3, is_vertical), false)?;
        ask_at(&mut asked, placed(101, low + 1, is_vertical), false)?;
        ask_at(&mut asked, placed(-1, low + 3, is_vertical), true)?;
        ask_at(&mut asked, placed(-3, low + 1, is_vertical), false)?;
    }
    Ok(asked)
}

fn tells_comb(alloc: Global, teeth: u8, is_vertical: bool) -> Result<bool, Fault> {
    let shape = comb(alloc, teeth, is_vertical)?;
    let shapes = one_shape(alloc, shape)?;
    let asked = ask_comb(alloc, teeth, is_vertical)?;
    is_told(alloc, &shapes, &asked)
}

// Combs of few teeth and of many, both ways.
#[test]
fn tells_teeth_of_combs(rt: HostRuntime) {
    for teeth in [3_u8, 15, 16, 40, 200] {
        assert!(rt; tells_comb(rt.alloc(), teeth, false) == Ok(true));
        assert!(rt; tells_comb(rt.alloc(), teeth, true) == Ok(true));
    }
}

// Whether the sides of each tooth are told, that of the back, and points between them.
fn are_sides_told(kept: &PointLocator<i32>, teeth: u8) -> bool {
    for tooth in 0..teeth {
        let low = 4 * i32::from(tooth);
        let are_on = is_on_edge(kept, 50, low) == Some(true)
            && is_on_edge(kept, 50, low + 2) == Some(true)
            && is_on_edge(kept, 100, low + 1) == Some(true)
            && is_on_edge(kept, 0, low + 3) == Some(true)
            && is_on_edge(kept, -2, low + 1) == Some(true);
        let are_off = is_on_edge(kept, 50, low + 1) == Some(false)
            && is_on_edge(kept, 50, low + 3) == Some(false)
            && is_on_edge(kept, -1, low + 1) == Some(false)
            && is_on_edge(kept, 100, low + 3) == Some(false);
        if !are_on || !are_off {
            return false;
        }
    }
    true
}

fn tells_sides(alloc: Global, teeth: u8) -> Result<bool, Fault> {
    let shape = comb(alloc, teeth, false)?;
    let kept = keep(alloc, shape)?;
    Ok(are_sides_told(&kept, teeth))
}

#[test]
fn tells_sides_of_combs(rt: HostRuntime) {
    for teeth in [3_u8, 15, 16, 40, 200] {
        assert!(rt; tells_sides(rt.alloc(), teeth) == Ok(true));
    }
}

// Squares that lie in one another, as one shape, and two units apart.
fn rings(alloc: Global, count: u8) -> Result<IntShapes<i32>, Fault> {
    let mut contours = Vec::new(alloc);
    for ring in 0..count {
        contours.push(square_round(alloc, ring)?)?;
    }
    one_shape(alloc, IntShape { contours })
}

// The square of this number about 0 0.
fn square_round(alloc: Global, ring: u8) -> Result<IntPath<i32>, Fault> {
    let low = -2 - 2 * i32::from(ring);
    let high = 2 * i32::from(ring) + 2;
    let corners = [
        IntPoint::new(low, low),
        IntPoint::new(high, low),
        IntPoint::new(high, high),
        IntPoint::new(low, high),
    ];
    Ok(IntPath {
        points: Vec::from_slice(alloc, &corners)?,
    })
}

// A point beside each square, inside of it and of all wider ones: of an odd number of them or not.
fn ask_rings(alloc: Global, count: u8) -> Result<Asked, Fault> {
    let mut asked = ask_nothing(alloc);
    let mut is_odd = count % 2 == 1;
    for ring in 0..count {
        let x = 2 * i32::from(ring) + 1;
        ask(&mut asked, x, 0, is_odd)?;
        ask(&mut asked, 0, x, is_odd)?;
        ask(&mut asked, -1, x, is_odd)?;
        is_odd = !is_odd;
    }
    Ok(asked)
}

fn tells_rings(alloc: Global, count: u8) -> Result<bool, Fault> {
    let shapes = rings(alloc, count)?;
    let asked = ask_rings(alloc, count)?;
    is_told(alloc, &shapes, &asked)
}

#[test]
fn tells_squares_in_one_another(rt: HostRuntime) {
    for count in [3_u8, 16, 100] {
        assert!(rt; tells_rings(rt.alloc(), count) == Ok(true));
    }
}

// ---- many shapes

// Squares of side 10 in a row, each a shape.
fn row(alloc: Global, count: u8) -> Result<IntShapes<i32>, Fault> {
    let mut shapes = Vec::new(alloc);
    for place in 0..count {
        let x = 20 * i32::from(place);
        let corners = [
            IntPoint::new(x, 0),
            IntPoint::new(x + 10, 0),
            IntPoint::new(x + 10, 10),
            IntPoint::new(x, 10),
        ];
        shapes.push(shape_of(alloc, &corners)?)?;
    }
    Ok(IntShapes { shapes })
}

fn ask_row(alloc: Global, count: u8) -> Result<Asked, Fault> {
    let mut asked = ask_nothing(alloc);
    for place in 0..count {
        let x = 20 * i32::from(place);
        ask(&mut asked, x + 5, 5, true)?;
        ask(&mut asked, x + 15, 5, false)?;
        ask(&mut asked, x + 5, -5, false)?;
        ask(&mut asked, x + 5, 15, false)?;
    }
    Ok(asked)
}

fn tells_row(alloc: Global, count: u8) -> Result<bool, Fault> {
    let shapes = row(alloc, count)?;
    let asked = ask_row(alloc, count)?;
    is_told(alloc, &shapes, &asked)
}

// Of 7, 8, 15, 16, 17 and 100 shapes.
#[test]
fn tells_squares_in_a_row(rt: HostRuntime) {
    for count in [7_u8, 8, 15, 16, 17, 100] {
        assert!(rt; tells_row(rt.alloc(), count) == Ok(true));
    }
}

// ---- coordinates of 64 bits

// How far the outermost corners lie from 0, and how wide a bar is.
const FAR: i64 = 34_359_738_368;

const WIDTH: i64 = 1_073_741_824;

// 32 vertical bars from left to right, each a shape, with a gap as wide as a bar behind each.
fn bars(alloc: Global) -> Result<IntShapes<i64>, Fault> {
    let mut shapes = Vec::new(alloc);
    for place in 0..32_u8 {
        let left = 2 * WIDTH * i64::from(place) - FAR;
        let corners = [
            IntPoint::new(left, -FAR),
            IntPoint::new(left + WIDTH, -FAR),
            IntPoint::new(left + WIDTH, FAR),
            IntPoint::new(left, FAR),
        ];
        let contour = IntPath {
            points: Vec::from_slice(alloc, &corners)?,
        };
        shapes.push(IntShape {
            contours: Vec::from_array(alloc, [contour])?,
        })?;
    }
    Ok(IntShapes { shapes })
}

// One unit from each corner of each bar: inside of it, beside it, above it and below it.
fn tells_bars(alloc: Global) -> Result<bool, Fault> {
    let shapes = bars(alloc)?;
    let mut points = Vec::new(alloc);
    let mut wanted = Vec::new(alloc);
    for place in 0..32_u8 {
        let left = 2 * WIDTH * i64::from(place) - FAR;
        for x in [left - 1, left + 1, left + WIDTH - 1, left + WIDTH + 1] {
            for y in [-FAR - 1, 1 - FAR, FAR - 1, FAR + 1] {
                points.push(IntPoint::new(x, y))?;
                wanted.push(x > left && x < left + WIDTH && y > -FAR && y < FAR)?;
            }
        }
    }
    let at_once = in_shapes(alloc, &shapes, &points)?;
    let one_by_one = in_locator(alloc, &shapes, &points)?;
    Ok(at_once.as_slice() == wanted.as_slice() && one_by_one.as_slice() == wanted.as_slice())
}

#[test]
fn tells_bars_far_out(rt: HostRuntime) {
    assert!(rt; tells_bars(rt.alloc()) == Ok(true));
}

// ---- refused growth

// Whether a locator of two squares that overlap tells what it has to, or why it isn't made.
fn is_kept(alloc: Global) -> Result<bool, Fault> {
    let first = shape_of(alloc, &SQUARE)?;
    let second = shape_of(alloc, &OTHER)?;
    let shapes = IntShapes {
        shapes: Vec::from_array(alloc, [first, second])?,
    };
    let points = [
        IntPoint::new(7, 7),
        IntPoint::new(12, 12),
        IntPoint::new(12, 2),
    ];
    let found = in_locator(alloc, &shapes, &points)?;
    Ok(found.as_slice() == [true, true, false].as_slice())
}

// As it runs here nothing is refused. A run that refuses one allocation passes it too.
#[test]
fn growth_of_locators_refused(rt: HostRuntime) {
    let is_right = is_kept(rt.alloc());
    assert!(rt; is_right == Ok(true) || is_right == Err(Fault::Memory));
}
