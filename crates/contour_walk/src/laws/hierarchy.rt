//! Laws of hierarchies, each the contract of a function that does nothing.

ghost use Rattle.contour_walk.specs.HierarchyLaws.{EachShapeIsAChildOnce};

/// Each shape is a child once at most: it lies in one hole, or in none.
pub fn each_shape_is_a_child_once()
    ensures { EachShapeIsAChildOnce }
{}
