//! What every builder holds.
ghost use Rattle.std.specs.Prelude.{◌≡◌};

use super::splitting::are_equal;
use super::{Row, segments_from};
use i_tree::Steps;
use plane_base::fault::Fault;
use plane_base::path::IntPath;
use plane_base::point::IntPoint;
use plane_base::range::all_in_range;
use segment_split::count::{ShapeCountBoolean, WindingCount};
use segment_split::given::held::Held;
use segment_split::solver::Solver;
use segment_split::split::can_be_split;
use std::alloc::Global;
use std::marker::Brand;
use std::sync::ledger::{Blank, Ledger};

const TRIANGLE: [IntPoint<i32>; 3] = [
    IntPoint { x: 0, y: 0 },
    IntPoint { x: 4, y: 0 },
    IntPoint { x: 0, y: 4 },
];

// Adds the triangle three times: as a contour, as a source, and as a path of two edges with the edge that is left.
fn add_triangles(
    held: &mut Held<ShapeCountBoolean, i32, ()>,
    source: &IntPath<i32>,
) -> Result<(), Fault> {
    let one = ShapeCountBoolean::new(1, 0);
    let [a, b, c] = TRIANGLE;
    if all_in_range(&TRIANGLE) {
        held.add_contour(&TRIANGLE, false, one, ())?;
    }
    if all_in_range(&source.points) {
        held.add_source(source, true, one, ())?;
    }
    held.add_path(&[b, c, a], one, ())?;
    held.add_edge(a, b, one, ())
}

// The triangle, three times.
const JOINED: [Row; 3] = [
    ((0, 0), (0, 4), -3, 0),
    ((0, 0), (4, 0), 3, 0),
    ((0, 4), (4, 0), -3, 0),
];

// Whether the triangles are joined to one, and whether what failed takes nothing until all is taken out.
fn holds_triangles<L: Ledger>(
    held: &mut Held<ShapeCountBoolean, i32, ()>,
    source: &IntPath<i32>,
    solver: &Solver,
    blank: Blank,
) -> Result<bool, Fault>
    requires name { blank.name ≡ L.name }
    requires parts { blank.parts ≡ L.parts }
    requires two { blank.parts ≡ 2 }
{
    let mut steps = Steps::<L>::new(blank);
    let wanted = segments_from(*source.points.allocator(), &JOINED)?;
    add_triangles(held, source)?;
    let are_added = held.segments().len() == 9;
    if !can_be_split(held.segments()) {
        return Ok(false);
    }
    let is_changed = held.redraw(solver, &mut steps)?;
    let are_joined = are_equal(held.segments(), &wanted);
    held.fail();
    let is_refused = held.has_failed() && add_triangles(held, source) == Err(Fault::Failed);
    held.clear();
    let is_cleared = held.segments().is_empty() && !held.has_failed();
    Ok(are_added && is_changed && are_joined && is_refused && is_cleared)
}

fn holds_what_is_added(alloc: Global, solver: &Solver) -> Result<bool, Fault> {
    let source = IntPath {
        points: Vec::from_slice(alloc, &TRIANGLE)?,
    };
    let mut held = Held::new(alloc, 4, ())?;
    let is_right = holds_triangles::<Brand>(&mut held, &source, solver, Blank::new(2))?;
    let is_stored = *held.store() == ();
    held.into_store();
    Ok(is_right && is_stored)
}

#[test]
fn holds_until_it_fails(rt: HostRuntime) {
    for solver in [Solver::LIST, Solver::TREE, Solver::FRAG, Solver::AUTO] {
        assert!(rt; holds_what_is_added(rt.alloc(), &solver) == Ok(true));
    }
}
