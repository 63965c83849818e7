//! Overlays with the shapes that lie in holes of others: the tests, a hierarchy by the engine, and its links in the order of holes.

ghost use Rattle.std.specs.Prelude.{◌≡◌, ◌≢◌, IfOk, IfErr, map};
ghost use Rattle.polygon_c.specs.Given.{given};
ghost use Rattle.polygon_c.specs.Answers.{IsNotOverlaid, IsRefused};
ghost use Rattle.polygon_c.specs.Flat.{arrays, lists_of};
ghost use Rattle.polygon_c.specs.Nesting.{c_link, IsLaidHierarchy, HandsOutLinks, link_sizes_of, IsHierarchyCall, IsWideHierarchyCall};

use crate::arrays::write;
use crate::asked::{Asked, ask};
use crate::engine;
use crate::given::{CPoint, CPoint64, CPointOf};
use crate::laid::{Laid, lay};
use crate::refusal::Refusal;
use polygon_overlay::plane::int::OverlayInt;
use polygon_overlay::walk::hierarchy::ChildLink;
use std::alloc::{AllocError, Global};

/// A shape that lies in a hole of another, directly. All are numbered from 0.
#[derive(Clone, Copy, Debug, PartialEq, Eq)]
#[repr(C)]
pub struct CLink {
    /// The shape with the hole.
    pub parent_shape: usize,
    /// The hole, by its number among the contours of all shapes.
    pub parent_contour: usize,
    /// The shape in the hole.
    pub child_shape: usize,
}

/// How many points, contours, shapes and links an answer has.
#[derive(Clone, Copy, Debug)]
#[repr(C)]
pub struct LinkSizes {
    pub points: usize,
    pub contours: usize,
    pub shapes: usize,
    pub links: usize,
}

// Shapes laid flat, and their links.
#[derive(Debug, Drop)]
pub(crate) struct LaidHierarchy<P> {
    pub(crate) laid: Laid<P>,
    pub(crate) links: Vec<CLink>,
}

/// Overlays as `polygon_c_overlay` does, and writes a link for each shape that lies in a hole of another too, by rising holes and shapes.
///
/// Where nothing is answered the status says why, as there, and the arrays stay as they were. `Room` comes last, where an array is shorter
/// than the answer, and only then `sizes` is told too.
#[unsafe(no_mangle)]
pub extern "C" fn polygon_c_hierarchy(
    alloc: Global,
    subject: &[CPoint],
    subject_lengths: &[usize],
    clip: &[CPoint],
    clip_lengths: &[usize],
    query: &[u32],
    points: &mut [CPoint],
    contours: &mut [usize],
    shapes: &mut [usize],
    links: &mut [CLink],
    sizes: &mut LinkSizes,
) -> u32
    ensures called { IsHierarchyCall query.now (given subject.now subject_lengths.now clip.now clip_lengths.now)
        (arrays points.old contours.old shapes.old) (arrays points.new contours.new shapes.new) links.old links.new sizes.old sizes.new result }
    ensures points { result ≢ 0 → points.new ≡ points.old }
    ensures contours { result ≢ 0 → contours.new ≡ contours.old }
    ensures shapes { result ≢ 0 → shapes.new ≡ shapes.old }
    ensures links { result ≢ 0 → links.new ≡ links.old }
{
    match hierarchy::<i32, CPoint>(alloc, query, subject, subject_lengths, clip, clip_lengths) {
        Ok(found) => hand_out(&found, points, contours, shapes, links, sizes),
        Err(refusal) => refusal.status(),
    }
}

/// `polygon_c_hierarchy` with coordinates of 64 bits.
#[unsafe(no_mangle)]
pub extern "C" fn polygon_c_hierarchy64(
    alloc: Global,
    subject: &[CPoint64],
    subject_lengths: &[usize],
    clip: &[CPoint64],
    clip_lengths: &[usize],
    query: &[u32],
    points: &mut [CPoint64],
    contours: &mut [usize],
    shapes: &mut [usize],
    links: &mut [CLink],
    sizes: &mut LinkSizes,
) -> u32
    ensures called { IsWideHierarchyCall query.now (given subject.now subject_lengths.now clip.now clip_lengths.now)
        (arrays points.old contours.old shapes.old) (arrays points.new contours.new shapes.new) links.old links.new sizes.old sizes.new result }
    ensures points { result ≢ 0 → points.new ≡ points.old }
    ensures contours { result ≢ 0 → contours.new ≡ contours.old }
    ensures shapes { result ≢ 0 → shapes.new ≡ shapes.old }
    ensures links { result ≢ 0 → links.new ≡ links.old }
{
    match hierarchy::<i64, CPoint64>(alloc, query, subject, subject_lengths, clip, clip_lengths) {
        Ok(found) => hand_out(&found, points, contours, shapes, links, sizes),
        Err(refusal) => refusal.wide_status(),
    }
}

// The hierarchy laid flat, or why there is none.
fn hierarchy<I: OverlayInt, P: CPointOf<I>>(
    alloc: Global,
    query: &[u32],
    subject: &[P],
    subject_lengths: &[usize],
    clip: &[P],
    clip_lengths: &[usize],
) -> Result<LaidHierarchy<P>, Refusal>
    ensures answered { IfOk result (λ found. IsLaidHierarchy P.plane P.at I.least I.greatest query.now (given subject.now subject_lengths.now clip.now clip_lengths.now)
        (lists_of found.laid) found.links.items) }
    ensures refused { IfErr result (IsRefused P.plane I.least I.greatest IsNotOverlaid query.now (given subject.now subject_lengths.now clip.now clip_lengths.now)) }
{
    let asked: Asked<I> = ask(alloc, query, subject, subject_lengths, clip, clip_lengths)?;
    let found = engine::hierarchy(alloc, asked.request, &asked.subjects, &asked.clips)?;
    let laid = lay(alloc, &found.shapes)?;
    let links = c_links(alloc, &found.links)?;
    Ok(LaidHierarchy { laid, links })
}

// The links as C has them.
fn c_links(alloc: Global, links: &[ChildLink]) -> Result<Vec<CLink>, AllocError>
    ensures { IfOk result (λ found. found.items ≡ map c_link links.now) }
{
    let mut found = Vec::with_capacity(alloc, links.len())?;
    for link in links {
        found.push(CLink {
            parent_shape: link.parent_shape_index,
            parent_contour: link.parent_contour_index,
            child_shape: link.child_shape_index,
        })?;
    }
    Ok(found)
}

// Writes an answer over arrays, if they have room for it, and tells its sizes.
fn hand_out<P: Copy>(
    found: &LaidHierarchy<P>,
    points: &mut [P],
    contours: &mut [usize],
    shapes: &mut [usize],
    links: &mut [CLink],
    sizes: &mut LinkSizes,
) -> u32
    ensures handed { HandsOutLinks (lists_of found.now.laid) found.now.links.items (arrays points.old contours.old shapes.old)
        (arrays points.new contours.new shapes.new) links.old links.new result }
    ensures points { result ≢ 0 → points.new ≡ points.old }
    ensures contours { result ≢ 0 → contours.new ≡ contours.old }
    ensures shapes { result ≢ 0 → shapes.new ≡ shapes.old }
    ensures links { result ≢ 0 → links.new ≡ links.old }
    ensures sizes { sizes.new ≡ link_sizes_of (lists_of found.now.laid) found.now.links.items }
{
    let laid = &found.laid;
    *sizes = LinkSizes {
        points: laid.points.len(),
        contours: laid.contours.len(),
        shapes: laid.shapes.len(),
        links: found.links.len(),
    };
    if points.len() < sizes.points
        || contours.len() < sizes.contours
        || shapes.len() < sizes.shapes
        || links.len() < sizes.links
    {
        return Refusal::Room.status();
    }
    write(&laid.points, points);
    write(&laid.contours, contours);
    write(&laid.shapes, shapes);
    write(&found.links, links);
    0
}
