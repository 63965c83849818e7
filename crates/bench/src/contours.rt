//! Contours that are split, swept over and overlaid.

ghost use Rattle.std.specs.Prelude.{◌≤◌, ◌<◌};

use plane_base::fault::Fault;
use plane_base::path::IntPath;
use plane_base::point::IntPoint;
use std::alloc::Global;

/// Contours of subject and clip.
#[derive(Drop)]
pub(crate) struct Contours {
    pub(crate) subjects: Vec<IntPath<i32>>,
    pub(crate) clips: Vec<IntPath<i32>>,
}

/// So many triangles with corners in a square of 20,000 by 20,000 and sides up to 2,000, drawn from a fixed seed.
pub(crate) fn triangles(alloc: Global, count: u32) -> Result<Contours, Fault> {
    let mut subjects = Vec::new(alloc);
    let mut seed = 1;
    for _ in 0..count {
        let first = IntPoint::new(place(&mut seed), place(&mut seed));
        let second = near(first, &mut seed);
        let third = near(first, &mut seed);
        subjects.push(contour(alloc, &[first, second, third])?)?;
    }
    Ok(Contours {
        subjects,
        clips: Vec::new(alloc),
    })
}

// A number from 0 to 19,999 that looks drawn.
fn place(seed: &mut u64) -> i32 {
    *seed = next(*seed);
    ((*seed >> 33) % 20_000) as i32
}

// A point whose coordinates lie no farther than 707 from this one's: two such points are no farther than 2,000 apart.
fn near(point: IntPoint<i32>, seed: &mut u64) -> IntPoint<i32> {
    let x = point.x.wrapping_add(shift(seed));
    let y = point.y.wrapping_add(shift(seed));
    IntPoint::new(x, y)
}

// A number from -707 to 707 that looks drawn.
fn shift(seed: &mut u64) -> i32 {
    *seed = next(*seed);
    ((*seed >> 33) % 1_415) as i32 - 707
}

// The next number of a fixed row, by a multiplication and a sum.
fn next(seed: u64) -> u64 {
    seed.wrapping_mul(6364136223846793005)
        .wrapping_add(1442695040888963407)
}

/// Squares of a subject in rows and columns, and as many of a clip, each of which covers the corners of four.
pub(crate) fn checkerboard(alloc: Global, rows: u32, columns: u32) -> Result<Contours, Fault>
    requires rows { rows ≤ 50 }
    requires columns { columns ≤ 50 }
{
    let mut subjects = Vec::new(alloc);
    let mut clips = Vec::new(alloc);
    for row in 0..rows {
        for column in 0..columns {
            subjects.push(square(alloc, 300 * column, 300 * row, 200)?)?;
            clips.push(square(alloc, 300 * column + 150, 300 * row + 150, 200)?)?;
        }
    }
    Ok(Contours { subjects, clips })
}

/// So many squares, each within the one before.
pub(crate) fn nested_squares(alloc: Global, count: u32) -> Result<Contours, Fault>
    requires { count ≤ 2500 }
{
    let mut subjects = Vec::new(alloc);
    for i in 0..count {
        subjects.push(square(alloc, 4 * i, 4 * i, 8 * (count - i))?)?;
    }
    Ok(Contours {
        subjects,
        clips: Vec::new(alloc),
    })
}

/// Squares in rows and columns, each with a square hole.
pub(crate) fn squares_with_holes(alloc: Global, rows: u32, columns: u32) -> Result<Contours, Fault>
    requires rows { rows ≤ 100 }
    requires columns { columns ≤ 100 }
{
    let mut subjects = Vec::new(alloc);
    for column in 0..columns {
        for row in 0..rows {
            subjects.push(square(alloc, 190 * column, 190 * row, 120)?)?;
            subjects.push(square(alloc, 190 * column + 30, 190 * row + 30, 60)?)?;
        }
    }
    Ok(Contours {
        subjects,
        clips: Vec::new(alloc),
    })
}

/// Triangles that share one apex, so many of them on each side of a square.
pub(crate) fn star(alloc: Global, on_each_side: u32) -> Result<Contours, Fault>
    requires { on_each_side ≤ 1000 }
{
    let mut subjects = Vec::new(alloc);
    let far = 4 * on_each_side as i32;
    for i in 0..on_each_side {
        let first = 8 * i as i32 - far;
        let second = first + 4;
        subjects.push(triangle(alloc, (far, first), (far, second))?)?;
        subjects.push(triangle(alloc, (-first, far), (-second, far))?)?;
        subjects.push(triangle(alloc, (-far, -first), (-far, -second))?)?;
        subjects.push(triangle(alloc, (first, -far), (second, -far))?)?;
    }
    Ok(Contours {
        subjects,
        clips: Vec::new(alloc),
    })
}

// The triangle of two points and 0 0.
fn triangle(alloc: Global, first: (i32, i32), second: (i32, i32)) -> Result<IntPath<i32>, Fault> {
    let corners = [
        IntPoint::new(0, 0),
        IntPoint::new(first.0, first.1),
        IntPoint::new(second.0, second.1),
    ];
    contour(alloc, &corners)
}

// A square with this least corner.
fn square(alloc: Global, x: u32, y: u32, side: u32) -> Result<IntPath<i32>, Fault>
    requires x { x ≤ 20000 }
    requires y { y ≤ 20000 }
    requires side { side ≤ 20000 }
{
    let (left, right) = (x as i32, (x + side) as i32);
    let (bottom, top) = (y as i32, (y + side) as i32);
    let corners = [
        IntPoint::new(left, bottom),
        IntPoint::new(right, bottom),
        IntPoint::new(right, top),
        IntPoint::new(left, top),
    ];
    contour(alloc, &corners)
}

/// Two triangles whose redrawing takes hundreds of passes where the radius stays 1.
pub(crate) fn slow_triangles(alloc: Global) -> Result<Contours, Fault> {
    let mut subjects = Vec::new(alloc);
    let one = [
        IntPoint::new(1877, -1999),
        IntPoint::new(1733, 1999),
        IntPoint::new(-271, 1998),
    ];
    let other = [
        IntPoint::new(-1996, 1996),
        IntPoint::new(1628, 2000),
        IntPoint::new(1862, 1999),
    ];
    subjects.push(contour(alloc, &one)?)?;
    subjects.push(contour(alloc, &other)?)?;
    Ok(Contours {
        subjects,
        clips: Vec::new(alloc),
    })
}

fn contour(alloc: Global, points: &[IntPoint<i32>]) -> Result<IntPath<i32>, Fault> {
    Ok(IntPath {
        points: Vec::from_slice(alloc, points)?,
    })
}
