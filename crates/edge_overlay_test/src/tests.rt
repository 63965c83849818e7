//! What the tests share.

use contour_walk::vector::edge::{DataVectorEdge, DataVectorShape, SideFill};
use plane_base::point::IntPoint;
use polygon_overlay::edge_overlay::EdgeOverlay;
use segment_split::count::ShapeCountBoolean;
use segment_split::data::OverlayEdgeData;

mod calls;
mod careless;
mod edges;
mod fans;
mod held;
mod lists;
mod paths;
mod refusals;
mod sided;
mod squares;

type Point = (i32, i32);

fn at(point: Point) -> IntPoint<i32> {
    IntPoint::new(point.0, point.1)
}

// The ends of an edge that is answered, and its fill.
type Row = (Point, Point, SideFill);

// Whether edges have these ends and fills, whatever their data.
fn are_rows<D: Copy>(edges: &[DataVectorEdge<i32, D>], rows: &[Row]) -> bool {
    if edges.len() != rows.len() {
        return false;
    }
    for (edge, row) in edges.iter().zip(rows.iter()) {
        let (from, to, fill) = *row;
        if edge.a != at(from) || edge.b != at(to) || edge.fill != fill {
            return false;
        }
    }
    true
}

// The edges of the one path of the one shape. There are none where there are more shapes or paths, or fewer.
fn only_path<D: Copy>(shapes: &[DataVectorShape<i32, D>]) -> &[DataVectorEdge<i32, D>] {
    match shapes {
        [shape] => match shape.paths.as_slice() {
            [path] => &path.edges,
            _ => &[],
        },
        _ => &[],
    }
}

// Whether a builder holds edges with these ends, in order.
fn are_held<D: OverlayEdgeData<ShapeCountBoolean>>(
    overlay: &EdgeOverlay<i32, D>,
    wanted: &[[Point; 2]],
) -> bool {
    let mut place = 0_usize;
    for [a, b] in overlay.edges() {
        match wanted.get(place) {
            Some([from, to]) if a == at(*from) && b == at(*to) => {}
            _ => return false,
        }
        place = place.wrapping_add(1);
    }
    place == wanted.len()
}
