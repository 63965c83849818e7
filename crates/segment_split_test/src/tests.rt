//! What the tests share.

use plane_base::fault::Fault;
use plane_base::point::IntPoint;
use segment_split::count::{ShapeCountBoolean, WindingCount};
use segment_split::segment::Segment;
use std::alloc::Global;

mod adding;
mod careless;
mod colours;
mod drawn;
mod held;
mod joins;
mod lines;
mod mixed;
mod roads;
mod splitting;
mod types;
mod wide;

// A step, and how often subject and clip run along it.
type Row = ((i32, i32), (i32, i32), i32, i32);

// A segment without data, of two different points.
fn segment_from(row: Row) -> Option<Segment<ShapeCountBoolean, i32, ()>> {
    let (a, b, subj, clip) = row;
    if a == b || subj == i32::MIN || clip == i32::MIN {
        return None;
    }
    let from = IntPoint::new(a.0, a.1);
    let to = IntPoint::new(b.0, b.1);
    Some(Segment::new(from, to, ShapeCountBoolean::new(subj, clip), (), &mut ()))
}

// Steps without length are left out.
fn segments_from(
    alloc: Global,
    rows: &[Row],
) -> Result<Vec<Segment<ShapeCountBoolean, i32, ()>>, Fault> {
    let mut segments = Vec::new(alloc);
    push_rows(&mut segments, rows)?;
    Ok(segments)
}

fn push_rows(
    segments: &mut Vec<Segment<ShapeCountBoolean, i32, ()>>,
    rows: &[Row],
) -> Result<(), Fault> {
    for row in rows {
        if let Some(segment) = segment_from(*row) {
            segments.push(segment)?;
        }
    }
    Ok(())
}
