//! A first program over the engine: a parcel without its pond, contour by contour.
#![tactic(auto)]

use polygon_overlay::arrangement::fill_rule::FillRule;
use polygon_overlay::arrangement::overlay_rule::OverlayRule;
use polygon_overlay::overlay::Overlay;
use polygon_overlay::plane::fault::Fault;
use polygon_overlay::plane::path::IntShapes;
use polygon_overlay::plane::point::IntPoint;
use polygon_overlay::plane::range::all_in_range;
use polygon_overlay::split::count::ShapeType;
use std::alloc::Global;
use std::io;
use std::process::ExitCode;

fn main(rt: HostRuntime) -> ExitCode {
    let parcel = [point(0, 0), point(10, 0), point(10, 10), point(0, 10)];
    let pond = [point(3, 3), point(7, 3), point(7, 7), point(3, 7)];
    match without(rt.alloc(), &parcel, &pond) {
        Ok(shapes) => match print(&rt, &shapes) {
            Ok(()) => ExitCode::SUCCESS,
            Err(_) => ExitCode::FAILURE,
        },
        Err(fault) => {
            let _ = eprintln!(rt; "{fault}");
            ExitCode::FAILURE
        }
    }
}

// What is left of a parcel without its pond; nothing where a point is out of range.
fn without(
    alloc: Global,
    parcel: &[IntPoint<i32>],
    pond: &[IntPoint<i32>],
) -> Result<IntShapes<i32>, Fault> {
    let mut overlay = Overlay::new(alloc, 0)?;
    if all_in_range(parcel) {
        overlay.add_contour(parcel, ShapeType::Subject)?;
    }
    if all_in_range(pond) {
        overlay.add_contour(pond, ShapeType::Clip)?;
    }
    overlay.overlay(OverlayRule::Difference, FillRule::NonZero)
}

fn print(rt: &impl Print, shapes: &IntShapes<i32>) -> io::Result<()> {
    for shape in &shapes.shapes {
        println!(rt; "a shape of {} contours", shape.contours.len())?;
        for contour in &shape.contours {
            for point in &contour.points {
                print!(rt; " ({}, {})", point.x, point.y)?;
            }
            println!(rt)?;
        }
    }
    Ok(())
}

fn point(x: i32, y: i32) -> IntPoint<i32> {
    IntPoint { x, y }
}
