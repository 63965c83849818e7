//! The loops of paths, by hand and against a slow program.

ghost use Rattle.std.specs.Prelude.{◌<◌, ◌+◌, IfSome, length};

use super::{contour_from, contours_from};
use contour_walk::loops::split_loops;
use plane_base::fault::Fault;
use plane_base::path::IntPath;
use plane_base::point::IntPoint;
use plane_base::range::all_in_range;
use std::alloc::Global;

// Whether a path, whose points lie in range, is split into these loops.
fn are_loops(
    alloc: Global,
    path: &[IntPoint<i32>],
    min_area: u64,
    wanted: &Vec<IntPath<i32>>,
) -> bool {
    if !all_in_range(path) {
        return false;
    }
    match split_loops(alloc, path, min_area) {
        Ok(loops) => loops == *wanted,
        Err(_) => false,
    }
}

fn splits(
    alloc: Global,
    row: &[(i32, i32)],
    min_area: u64,
    wanted: &[&[(i32, i32)]],
) -> Result<bool, Fault> {
    let path = contour_from(alloc, row)?;
    let wanted = contours_from(alloc, wanted)?;
    Ok(are_loops(alloc, &path.points, min_area, &wanted))
}

const EIGHT: &[(i32, i32)] = &[
    (0, 0),
    (1, 1),
    (2, 0),
    (3, 1),
    (4, 0),
    (3, -1),
    (2, 0),
    (1, -1),
];

#[test]
fn splits_two_loops(rt: HostRuntime) {
    let wanted: &[&[(i32, i32)]] = &[
        &[(3, 1), (4, 0), (3, -1), (2, 0)],
        &[(0, 0), (1, 1), (2, 0), (1, -1)],
    ];
    assert!(rt; splits(rt.alloc(), EIGHT, 0, wanted) == Ok(true));
}

// The second loop comes to a point that went with the first.
#[test]
fn forgets_what_is_cut_out(rt: HostRuntime) {
    let path: &[(i32, i32)] = &[
        (0, 0),
        (1, 0),
        (2, 1),
        (3, 0),
        (1, 0),
        (5, 5),
        (6, 6),
        (7, 5),
        (2, 1),
        (0, 3),
    ];
    let wanted: &[&[(i32, i32)]] = &[
        &[(2, 1), (3, 0), (1, 0)],
        &[(0, 0), (1, 0), (5, 5), (6, 6), (7, 5), (2, 1), (0, 3)],
    ];
    assert!(rt; splits(rt.alloc(), path, 0, wanted) == Ok(true));
}

// The doubled areas are 6 and 4.
#[test]
fn leaves_out_loops_below_the_minimum(rt: HostRuntime) {
    let path: &[(i32, i32)] = &[
        (0, 0),
        (1, 1),
        (2, 0),
        (3, 1),
        (5, 0),
        (3, -1),
        (2, 0),
        (1, -1),
    ];
    let greater: &[(i32, i32)] = &[(3, 1), (5, 0), (3, -1), (2, 0)];
    let lesser: &[(i32, i32)] = &[(0, 0), (1, 1), (2, 0), (1, -1)];
    assert!(rt; splits(rt.alloc(), path, 3, &[greater]) == Ok(true));
    assert!(rt; splits(rt.alloc(), path, 2, &[greater, lesser]) == Ok(true));
    assert!(rt; splits(rt.alloc(), path, 4, &[]) == Ok(true));
}

#[test]
fn leaves_out_loops_of_two_points(rt: HostRuntime) {
    let back: &[(i32, i32)] = &[(0, 0), (1, 0), (2, 0), (1, 0)];
    assert!(rt; splits(rt.alloc(), back, 0, &[]) == Ok(true));
    let twice: &[(i32, i32)] = &[(0, 0), (0, 0), (1, 0), (1, 1)];
    assert!(rt; splits(rt.alloc(), twice, 0, &[&[(0, 0), (1, 0), (1, 1)]]) == Ok(true));
}

// The first place whose point stands before it, and where.
fn first_return(points: &[IntPoint<i32>]) -> Option<(usize, usize)>
    ensures { IfSome result (λ r. (r.0 < r.1) × (r.1 < length points.now)) }
{
    for later in 0..points.len() {
        for earlier in 0..later {
            if points[earlier] == points[later] {
                return Some((earlier, later));
            }
        }
    }
    None
}

// Twice the area of a contour of small coordinates, without its sign.
fn small_area(points: &[IntPoint<i32>]) -> u64 {
    let mut sum = 0i64;
    for place in 0..points.len() {
        let from = points[place];
        let to = points[if place + 1 < points.len() {
            place + 1
        } else {
            0
        }];
        sum = sum.wrapping_add(i64::from(from.x).wrapping_mul(i64::from(to.y)));
        sum = sum.wrapping_sub(i64::from(from.y).wrapping_mul(i64::from(to.x)));
    }
    sum.unsigned_abs()
}

fn add_slowly(
    loops: &mut Vec<IntPath<i32>>,
    points: Vec<IntPoint<i32>>,
    min_area: u64,
) -> Result<(), Fault> {
    if points.len() > 2 && small_area(&points) / 2 >= min_area {
        loops.push(IntPath { points })?;
    }
    Ok(())
}

// The points without those from one place on to another.
fn without(
    alloc: Global,
    points: &[IntPoint<i32>],
    from: usize,
    to: usize,
) -> Result<Vec<IntPoint<i32>>, Fault> {
    let mut left = Vec::new(alloc);
    for place in 0..points.len() {
        if place < from || to <= place {
            left.push(points[place])?;
        }
    }
    Ok(left)
}

// The loops of a path: the first that closes is taken out of it, again and again.
fn split_slowly(
    alloc: Global,
    path: &[IntPoint<i32>],
    min_area: u64,
) -> Result<Vec<IntPath<i32>>, Fault> {
    let mut loops = Vec::new(alloc);
    let mut left = Vec::from_slice(alloc, path)?;
    for _ in 0..path.len() {
        let Some((earlier, later)) = first_return(&left) else {
            add_slowly(&mut loops, left, min_area)?;
            return Ok(loops);
        };
        let points = Vec::from_slice(alloc, &left[earlier + 1..later + 1])?;
        add_slowly(&mut loops, points, min_area)?;
        left = without(alloc, &left, earlier + 1, later + 1)?;
    }
    add_slowly(&mut loops, left, min_area)?;
    Ok(loops)
}

// Dice that look random, the same in each run.
#[derive(Drop)]
struct Dice {
    state: u64,
}

impl Dice {
    // A number from 0 to 7.
    fn roll(&mut self) -> u64
        ensures { result < 8 }
    {
        self.state ^= self.state << 13;
        self.state ^= self.state >> 7;
        self.state ^= self.state << 17;
        self.state % 8
    }

    // A path of up to 28 points, on few points of the plane.
    fn path(&mut self, alloc: Global) -> Result<Vec<IntPoint<i32>>, Fault> {
        let mut points = Vec::new(alloc);
        for _ in 0..self.roll() * 4 {
            let x = (self.roll() / 2) as i32;
            let y = self.roll() as i32;
            points.push(IntPoint::new(x, y))?;
        }
        Ok(points)
    }
}

// How many of 2,000 drawn paths are split as the slow program splits them.
fn splits_alike(alloc: Global) -> Result<u64, Fault> {
    let mut dice = Dice {
        state: 0x9e37_79b9_7f4a_7c15,
    };
    let mut alike = 0u64;
    for _ in 0..2000 {
        let path = dice.path(alloc)?;
        let min_area = dice.roll() / 2;
        let wanted = split_slowly(alloc, &path, min_area)?;
        if are_loops(alloc, &path, min_area, &wanted) {
            alike = alike.saturating_add(1);
        }
    }
    Ok(alike)
}

#[test]
fn splits_drawn_paths(rt: HostRuntime) {
    assert!(rt; splits_alike(rt.alloc()) == Ok(2000));
}
