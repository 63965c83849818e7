//! Which shapes are islands in holes of others.

ghost use Rattle.std.specs.Prelude.{◌≡◌};

use polygon_overlay::arrangement::fill_rule::FillRule;
use polygon_overlay::arrangement::overlay_rule::OverlayRule;
use polygon_overlay::overlay::Overlay;
use polygon_overlay::plane::fault::Fault;
use polygon_overlay::plane::int::OverlayInt;
use std::alloc::Global;

/// For each shape of the union of what is held the shape in whose hole it lies, if it lies in one.
pub fn shapes_around<I: OverlayInt>(
    alloc: Global,
    overlay: &mut Overlay<I>,
) -> Result<Vec<Option<usize>>, Fault>
    ensures options { overlay.new.options ≡ overlay.old.options }
    ensures solver { overlay.new.solver ≡ overlay.old.solver }
{
    let found = overlay.overlay_hierarchy(OverlayRule::Union, FillRule::EvenOdd)?;
    let mut around = Vec::new(alloc);
    around.resize(found.shapes.shape_ranges.len(), None)?;
    for link in &found.links {
        if link.child_shape_index < around.len() {
            around[link.child_shape_index] = Some(link.parent_shape_index);
        }
    }
    Ok(around)
}
