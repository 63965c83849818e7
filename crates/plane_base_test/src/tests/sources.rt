//! Sources of paths, read through their trait.

ghost use Rattle.std.specs.Prelude.{◌≡◌, IfOk, IsOkUnless};

use super::all_answered;
use super::words::contours_from;
use plane_base::fault::Fault;
use plane_base::flat::FlatContoursBuffer;
use plane_base::path::{IntPath, IntShape, IntShapes};
use plane_base::point::IntPoint;
use plane_base::resource::{ContourRef, IntShapeResource};
use row_words::Words;
use std::alloc::Global;
use std::slice;

// A path of its own with these points.
fn path_from(alloc: Global, points: &[IntPoint<i32>]) -> Result<IntPath<i32>, Fault>
    ensures points { IfOk result (λ path. path.points.items ≡ points.now) }
    ensures memory { IsOkUnless result Fault.Memory }
{
    Ok(IntPath {
        points: Vec::from_slice(alloc, points)?,
    })
}

// The paths of a source, copied one after another.
fn paths_from<R: IntShapeResource<i32>>(
    alloc: Global,
    source: &R,
) -> Result<Vec<IntPath<i32>>, Fault>
    requires { R.is_ready source.now }
    ensures { IsOkUnless result Fault.Memory }
{
    let mut found = Vec::new(alloc);
    for place in 0..source.path_count() {
        found.push(path_from(alloc, source.path(place))?)?;
    }
    Ok(found)
}

// The paths of the shapes of a source, copied one after another.
fn paths_by_shapes<R: IntShapeResource<i32>>(
    alloc: Global,
    source: &R,
) -> Result<Vec<IntPath<i32>>, Fault>
    requires { R.is_ready source.now }
    ensures { IsOkUnless result Fault.Memory }
{
    let mut found = Vec::new(alloc);
    for shape in 0..source.shape_count() {
        for index in 0..source.shape_len(shape) {
            found.push(path_from(alloc, source.shape_path(shape, index))?)?;
        }
    }
    Ok(found)
}

// Whether the source has these paths, in so many shapes.
fn has_paths<R: IntShapeResource<i32>>(
    alloc: Global,
    source: &R,
    shapes: usize,
    wanted: &[IntPath<i32>],
) -> bool
    requires { R.is_ready source.now }
{
    let Ok(by_place) = paths_from(alloc, source) else {
        return false;
    };
    let Ok(by_shape) = paths_by_shapes(alloc, source) else {
        return false;
    };
    source.shape_count() == shapes && *by_place == *wanted && *by_shape == *wanted
}

// Whether a path, and its points that are lent, are a source of that path alone.
fn is_alone(alloc: Global, path: &IntPath<i32>) -> bool {
    let alone = slice::from_ref(path);
    let lent = ContourRef {
        points: &path.points,
    };
    has_paths(alloc, path, 1, alone) && has_paths(alloc, &lent, 1, alone)
}

fn are_alone(alloc: Global, paths: &[IntPath<i32>]) -> bool {
    for path in paths {
        if !is_alone(alloc, path) {
            return false;
        }
    }
    true
}

// Whether a flat buffer has the paths that are added to it.
fn are_laid_flat(paths: &[IntPath<i32>], words: &mut Words<'_>) -> bool {
    let mut buffer = FlatContoursBuffer::new(words.alloc());
    for path in paths {
        words.note(buffer.add_contour(&path.points).is_ok());
    }
    buffer.is_well_formed() && has_paths(words.alloc(), &buffer, 1, paths)
}

// Adds copies of paths to a list.
fn add_copies(copies: &mut Vec<IntPath<i32>>, paths: &[IntPath<i32>], words: &mut Words<'_>) {
    for path in paths {
        match path.clone() {
            Ok(copy) => words.note(copies.push(copy).is_ok()),
            Err(_) => words.note(false),
        }
    }
}

// Whether the first shape, one without contours and the last have these paths.
fn are_side_by_side(
    alloc: Global,
    first: IntShape<i32>,
    last: IntShape<i32>,
    wanted: &[IntPath<i32>],
) -> bool {
    let none = IntShape {
        contours: Vec::new(alloc),
    };
    match Vec::from_array(alloc, [first, none, last]) {
        Ok(shapes) => has_paths(alloc, &IntShapes { shapes }, 3, wanted),
        Err(_) => false,
    }
}

fn is_answered(words: &mut Words<'_>) -> bool {
    words.next() == "sources" && are_sources(words)
}

// Whether each kind of source has the paths of the lists that a row gives.
fn are_sources(words: &mut Words<'_>) -> bool {
    let alloc = words.alloc();
    let first = IntShape {
        contours: contours_from(words),
    };
    let last = IntShape {
        contours: contours_from(words),
    };
    let mut both = Vec::new(alloc);
    add_copies(&mut both, &first.contours, words);
    add_copies(&mut both, &last.contours, words);
    let has_first = has_own_paths(&first, words);
    let has_both = are_side_by_side(alloc, first, last, &both);
    has_first && has_both
}

// Whether the shape, its paths one by one and a buffer of them have its paths.
fn has_own_paths(shape: &IntShape<i32>, words: &mut Words<'_>) -> bool {
    are_alone(words.alloc(), &shape.contours)
        && are_laid_flat(&shape.contours, words)
        && has_paths(words.alloc(), shape, 1, &shape.contours)
}

const ROWS: &str = "\
# the contours of two lists: each kind of source has those of the first, shapes those of both
sources 3 4 0 0 9 0 9 9 0 9 3 2 2 2 4 4 2 0 0
sources 2 3 2 2 2 4 4 2 4 0 0 9 0 9 9 0 9 2 0 3 20 0 21 0 20 1
sources 2 4 0 0 9 0 9 9 0 9 3 2 2 2 4 4 2 2 0 3 20 0 21 0 20 1
sources 0 0
";

#[test]
fn answers_rows_of_sources(rt: HostRuntime) {
    all_answered(&rt, ROWS, is_answered);
}
