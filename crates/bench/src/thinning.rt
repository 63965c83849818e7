//! Thins contours of 200,000 points: one with long straight passes, one that loses nothing, and one with a long
//! spike, begun at its foot and at its tip. A line for each says how many points are left and twice their area.

ghost use Rattle.std.specs.Prelude.{◌≤◌};

use plane_base::area::doubled_area;
use plane_base::fault::Fault;
use plane_base::point::IntPoint;
use plane_base::range::all_in_range;
use plane_base::thin::thin;
use std::alloc::Global;
use std::io;

/// Thins the four contours.
pub(crate) fn measure(rt: &(impl Print + AllocGlobal)) -> io::Result<()> {
    let alloc = rt.alloc();
    report(rt, alloc, "passes", straight_passes(alloc))?;
    report(rt, alloc, "teeth", teeth(alloc))?;
    report(rt, alloc, "spike", spike_at_the_foot(alloc))?;
    report(rt, alloc, "seam", spike_at_the_tip(alloc))
}

// Thins the contour and prints what is left of it.
fn report(
    rt: &impl Print,
    alloc: Global,
    name: &str,
    contour: Result<Vec<IntPoint<i32>>, Fault>,
) -> io::Result<()> {
    let points = match contour {
        Ok(points) => points,
        Err(fault) => return println!(rt; "{name}: {fault}"),
    };
    if !all_in_range(&points) {
        return println!(rt; "{name}: out of range");
    }
    let thinned = match thin(alloc, &points) {
        Ok(thinned) => thinned,
        Err(fault) => return println!(rt; "{name}: {fault}"),
    };
    println!(rt;
        "{name}: {} of {} points left, doubled area {}",
        thinned.points.len(),
        points.len(),
        doubled_area(&thinned.points)
    )
}

// A square of 50,000 points a side.
fn straight_passes(alloc: Global) -> Result<Vec<IntPoint<i32>>, Fault> {
    let mut points = Vec::new(alloc);
    for i in 0..50_000_u32 {
        points.push(IntPoint::new(20 * i as i32 - 500_000, -500_000))?;
    }
    for i in 0..50_000_u32 {
        points.push(IntPoint::new(500_000, 20 * i as i32 - 500_000))?;
    }
    for i in 0..50_000_u32 {
        points.push(IntPoint::new(500_000 - 20 * i as i32, 500_000))?;
    }
    for i in 0..50_000_u32 {
        points.push(IntPoint::new(-500_000, 500_000 - 20 * i as i32))?;
    }
    Ok(points)
}

// A row of teeth below a straight edge, without three points in a row on one line.
fn teeth(alloc: Global) -> Result<Vec<IntPoint<i32>>, Fault> {
    let mut points = Vec::new(alloc);
    for i in 0..199_998_u32 {
        points.push(IntPoint::new(5 * i as i32 - 500_000, 7 * (i % 2) as i32))?;
    }
    points.push(IntPoint::new(500_000, 100_000))?;
    points.push(IntPoint::new(-500_000, 100_000))?;
    Ok(points)
}

// A point of the spike's crooked way from the foot, where `i` is 0, up to the tip.
fn on_the_spike(i: u32) -> IntPoint<i32>
    requires { i ≤ 100000 }
{
    IntPoint::new(500_000 - 3 * (i % 2) as i32, 5 * i as i32 - 500_000)
}

// A square with a spike at a corner, there and back in 200,000 points.
fn spike_at_the_foot(alloc: Global) -> Result<Vec<IntPoint<i32>>, Fault> {
    let mut points = Vec::new(alloc);
    points.push(IntPoint::new(-500_000, -500_000))?;
    for i in 0..99_998_u32 {
        points.push(on_the_spike(i))?;
    }
    for i in 1..100_000_u32 {
        points.push(on_the_spike(99_999 - i))?;
    }
    points.push(IntPoint::new(500_000, 500_000))?;
    points.push(IntPoint::new(-500_000, 500_000))?;
    Ok(points)
}

// The same, begun at the tip, so that the spike is found at the seam.
fn spike_at_the_tip(alloc: Global) -> Result<Vec<IntPoint<i32>>, Fault> {
    let mut points = Vec::new(alloc);
    for i in 0..99_999_u32 {
        points.push(on_the_spike(99_998 - i))?;
    }
    points.push(IntPoint::new(500_000, 500_000))?;
    points.push(IntPoint::new(-500_000, 500_000))?;
    points.push(IntPoint::new(-500_000, -500_000))?;
    for i in 0..99_998_u32 {
        points.push(on_the_spike(i))?;
    }
    Ok(points)
}
