//! Segments with their orders: of a list, and of those that a vertical line meets.
//!
//! The second order takes one turn, as the status of a plane sweep needs it. Degenerate cases: segments that begin in one point
//! go by angle; a vertical one has no place among them, since it expires where it begins. Each call takes constant time.

ghost use Rattle.std.specs.Prelude.{◌≡◌, pos, ◌≤ℤ◌, ⊤, cond, int_lt};
ghost use Rattle.std.specs.Int.{int_min, int_max};
ghost use Rattle.std.specs.Ordering.{int_cmp};
ghost use Rattle.plane_base.specs.Plane.{is_before, point_order, edge_order, IsWithin};
ghost use Rattle.plane_base.specs.Segments.{IsEdgeWithin, order_against, angle_order, column_order, same_point, same_edge};
ghost use Rattle.plane_base.specs.MarkOrder.{mark_order};
ghost use Rattle.plane_base.specs.Views.{point_of};
ghost use Rattle.plane_base.specs.SegmentViews.{edge_of};

use crate::int::OverlayInt;
use crate::orientation::orientation;
use crate::point::IntPoint;
use i_tree::ExpiredKey;
use std::alloc::AllocError;
use std::cmp::Ordering;
use std::marker::Model;

/// A segment, its lesser end first. Ordered by `a` and then by `b`.
#[derive(Clone, Copy, Debug, PartialEq, Eq, PartialOrd, Ord)]
pub struct XSegment<I> {
    pub a: IntPoint<I>,
    pub b: IntPoint<I>,
}

/// A segment that a vertical line meets, its lesser end first. Its coordinates are in range, by its type: it is made of
/// ends in range. Contracts see the segment with its ends. As a key of a sweep it is ordered by `column_order`, and lives
/// until the line comes to its `b`.
#[derive(Copy, Debug, PartialEq, Eq)]
pub struct VSegment<I: OverlayInt> {
    pub a: IntPoint<I>,
    pub b: IntPoint<I>,
}

impl<I: OverlayInt> Model for VSegment<I> {
    ghost use Rattle.plane_base.specs.declared.segment.XSegment.{XSegment};
    ghost use Rattle.plane_base.specs.Plane.{IsWithin};
    ghost use Rattle.plane_base.specs.Views.{point_of};

    ghost Value = { XSegment I };

    ghost view = { λ s. record { a = s.a; b = s.b } };

    ghost inverse = { λ s. record { a = s.a; b = s.b } };

    ghost invariant = { λ s. IsWithin I.least I.greatest (point_of I.value s.a) × IsWithin I.least I.greatest (point_of I.value s.b) };
}

/// The coordinates from `min` to `max`.
#[derive(Clone, Copy, Debug, PartialEq, Eq)]
pub struct LineRange<I> {
    pub min: I,
    pub max: I,
}

/// A point and the number of what it belongs to.
#[derive(Clone, Copy, Debug, PartialEq, Eq)]
pub struct IdPoint<I> {
    pub id: usize,
    pub point: IntPoint<I>,
}

impl<I: OverlayInt> XSegment<I> {
    /// The order of segments, by `a` and then by `b`: what `cmp` answers.
    pub fn order(self, other: XSegment<I>) -> Ordering
        ensures is { result ≡ edge_order (edge_of I.value self) (edge_of I.value other) }
        ensures agrees { result ≡ ⟦<XSegment<I> as Ord>⟧.cmp self other }
    {
        self.cmp(&other)
    }

    /// The order of marks along the segment: by x, and at one x downward where the segment falls, else upward.
    pub fn mark_order(self, p: IntPoint<I>, q: IntPoint<I>) -> Ordering
        ensures { result ≡ mark_order (edge_of I.value self) (point_of I.value p) (point_of I.value q) }
    {
        order_of(p.x, q.x).then(order_at_one_x(self, p, q))
    }
}

impl<I: OverlayInt> Clone for VSegment<I> {
    ghost is_clone = { λ old new. new ≡ old };

    ghost is_infallible = { λ _. ⊤ };

    fn clone(&self) -> Result<Self, AllocError> {
        Ok(*self)
    }
}

impl<I: OverlayInt> ExpiredKey<I> for VSegment<I> {
    ghost expires = { λ s. s.b.x };

    ghost order = { λ s t. column_order (edge_of I.value s) (edge_of I.value t) };

    fn expiration(&self) -> I {
        self.b.x
    }

    fn key_order(&self, other: &Self) -> Ordering {
        self.column_order(*other)
    }
}

impl<I: OverlayInt> VSegment<I> {
    /// The segment from `a` to `b`, the lesser end first.
    pub fn new(a: IntPoint<I>, b: IntPoint<I>) -> Self
        requires a_in_range { IsWithin I.least I.greatest (point_of I.value a) }
        requires b_in_range { IsWithin I.least I.greatest (point_of I.value b) }
        ensures a { result.a ≡ a }
        ensures b { result.b ≡ b }
    {
        VSegment { a, b }
    }

    /// The segment itself, as one that a vertical line meets.
    pub fn from_segment(segment: XSegment<I>) -> Self
        requires { IsEdgeWithin I.least I.greatest (edge_of I.value segment) }
        ensures { result ≡ segment }
    {
        VSegment::new(segment.a, segment.b)
    }

    /// The segment with its ends.
    pub fn segment(self) -> XSegment<I>
        ensures is { result ≡ self }
        ensures within { IsEdgeWithin I.least I.greatest (edge_of I.value result) }
    {
        XSegment {
            a: self.a,
            b: self.b,
        }
    }

    /// The order of two segments that a vertical line meets and that have no more than ends in common:
    /// `Less` where this one passes below the other.
    pub fn column_order(self, other: VSegment<I>) -> Ordering
        ensures { result ≡ column_order (edge_of I.value self) (edge_of I.value other) }
    {
        match order_of_points(self.a, other.a) {
            Ordering::Less => self.order_against(other.a),
            Ordering::Equal => self.angle_order(other),
            Ordering::Greater => orientation(other.a, other.b, self.a),
        }
    }

    /// The order by angle of two segments with the same `a`: `Less` where this one turns left to reach the other.
    pub fn angle_order(self, other: VSegment<I>) -> Ordering
        ensures { result ≡ angle_order (edge_of I.value self) (edge_of I.value other) }
    {
        self.order_against(other.b)
    }

    /// The segment against a point of its columns: `Less` where it runs below the point, `Equal` where the point
    /// lies on its line.
    pub fn order_against(self, point: IntPoint<I>) -> Ordering
        requires { IsWithin I.least I.greatest (point_of I.value point) }
        ensures { result ≡ order_against (edge_of I.value self) (point_of I.value point) }
    {
        orientation(self.a, self.b, point).reverse()
    }
}

// The order along the segment of two marks with one x.
fn order_at_one_x<I: OverlayInt>(s: XSegment<I>, p: IntPoint<I>, q: IntPoint<I>) -> Ordering
    ensures { result ≡ cond (int_lt (I.value s.b.y) (I.value s.a.y)) (int_cmp (I.value q.y) (I.value p.y)) (int_cmp (I.value p.y) (I.value q.y)) }
{
    if is_less(s.b.y, s.a.y) {
        order_of(q.y, p.y)
    } else {
        order_of(p.y, q.y)
    }
}

fn is_less<I: OverlayInt>(a: I, b: I) -> bool
    ensures { result ≡ int_lt (I.value a) (I.value b) }
{
    a.to_i64() < b.to_i64()
}

fn order_of<I: OverlayInt>(a: I, b: I) -> Ordering
    ensures { result ≡ int_cmp (I.value a) (I.value b) }
{
    a.cmp(&b)
}

/// The order of points, by x and then by y.
pub fn order_of_points<I: OverlayInt>(a: IntPoint<I>, b: IntPoint<I>) -> Ordering
    ensures { result ≡ point_order (point_of I.value a) (point_of I.value b) }
{
    a.cmp(&b)
}

/// Whether `a` comes before `b` in that order.
pub fn comes_before<I: OverlayInt>(a: IntPoint<I>, b: IntPoint<I>) -> bool
    ensures { result ≡ is_before (point_of I.value a) (point_of I.value b) }
{
    order_of_points(a, b).is_lt()
}

/// Whether two points are one.
pub fn is_same_point<I: OverlayInt>(a: IntPoint<I>, b: IntPoint<I>) -> bool
    ensures { result ≡ same_point (point_of I.value a) (point_of I.value b) }
{
    order_of_points(a, b).is_eq()
}

/// Whether two segments have the same ends.
pub fn is_same_edge<I: OverlayInt>(one: XSegment<I>, other: XSegment<I>) -> bool
    ensures { result ≡ same_edge (edge_of I.value one) (edge_of I.value other) }
{
    is_same_point(one.a, other.a) && is_same_point(one.b, other.b)
}

/// The least and the greatest y of a segment.
pub fn rows<I: OverlayInt>(s: XSegment<I>) -> (i64, i64)
    ensures least { result.0 ≡ int_min (I.value s.a.y) (I.value s.b.y) }
    ensures greatest { result.1 ≡ int_max (I.value s.a.y) (I.value s.b.y) }
{
    let a = s.a.y.to_i64();
    let b = s.b.y.to_i64();
    if b < a { (b, a) } else { (a, b) }
}
