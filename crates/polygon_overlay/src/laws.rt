//! Laws of overlays, each the contract of a function that does nothing.

ghost use Rattle.std.specs.Prelude.{◌≡◌, List};
ghost use Rattle.plane_base.specs.Counts.{Count, Entry};
ghost use Rattle.plane_base.specs.Regions.{FillRule, OverlayRule};
ghost use Rattle.segment_split.specs.Data.{MayBeTurned};
ghost use Rattle.segment_arrangement.specs.RuleLaws.{FillAlike};
ghost use Rattle.polygon_overlay.specs.AreaLaws.{AreasAddUp};
ghost use Rattle.polygon_overlay.specs.BoxLaws.{AnswersStayInTheBox, ClipsStayInTheBox, SlicesStayInTheBox, VectorsStayInTheBox};
ghost use Rattle.polygon_overlay.specs.ContainLaws.{AnswersContain};
ghost use Rattle.polygon_overlay.specs.GroupLaws.{GroupsAreOverlaidAlone, ContoursMakeGroups, TilesAnswerAlike};
ghost use Rattle.polygon_overlay.specs.LoadLaws.{CountsNeverLeaveTheirRange};
ghost use Rattle.polygon_overlay.specs.OverlayLaws.{HoldingGoesOn, SourcesAreHeld, StrategiesAgree, WidthsAgree, OrderDoesNotMatter};
ghost use Rattle.polygon_overlay.specs.OverlayLaws.{ReversalExchangesSigns, ExchangeExchangesRules};
ghost use Rattle.polygon_overlay.specs.PassLaws.{PassesNeverCross};
ghost use Rattle.polygon_overlay.specs.RelationLaws.{CoversIsWithinExchanged, ApartIsDisjoint, PredicatesAgreeWithOverlays};
ghost use Rattle.polygon_overlay.specs.ReturnLaws.{EqualBoundariesAnswerAlike, AnswersComeBack, AnswersComeBackWinding, AnswersAreResolved};
ghost use Rattle.polygon_overlay.specs.RuleLaws.{AlikeRulesAnswerAlike};
ghost use Rattle.polygon_overlay.specs.VectorAnswers.{boundary_vectors};

use crate::given_laws::held_winds_as_given;
use contour_walk::laws::answers::{
    answers_are_orderly, answers_stand_on_ends, answers_wind, least_of_zero_keeps_all,
};
use contour_walk::laws::binding::corners_stay;
use contour_walk::laws::groups::groups_are_answered_alone;
use contour_walk::laws::loops::loops_keep_steps;
use contour_walk::laws::{all_are_walked, anchors_are_sided, answer_winds, passing_winds};
use plane_base::int::OverlayInt;
use plane_base::segment_laws::whole_marks_stay;
use segment_arrangement::laws::{
    alike_rules_link_alike, filled_is_bounded, groups_fill_alone, node_ring, once_is_positive,
    points_have_rings,
};
use segment_split::count::{ShapeCountBoolean, ShapeCountString};
use segment_split::data::OverlayEdgeData;
use segment_split::laws::spread::{marks_stand_along_their_edge, whole_meetings_keep_windings};
use segment_split::laws::{
    groups_redraw_alone, one_pass_is_enough, passes_rearrange, redrawing_comes_to_rest,
    redrawing_is_stable, redrawing_passes_counts, redrawing_passes_overlays,
    redrawn_maps_are_balanced,
};

/// New builders hold no contours, those made of sources hold theirs, and adders add to what is held.
pub fn holding_goes_on()
    ensures { HoldingGoesOn }
{}

/// Contours in range are held as a builder keeps edges: in range, each counting for something, and balanced. So laws of what is held tell of
/// overlays, simplified contours and relations by one call, whose clauses say which contours were held.
pub fn sources_are_held()
    ensures { SourcesAreHeld }
{}

/// Whatever the strategies, two solvers of one precision have the same contours in the same order, where both answer.
pub fn strategies_agree()
    ensures { StrategiesAgree }
{}

/// Whatever the types of their coordinates, two builders that hold the same edges answer by equal options with the same contours in the same
/// order.
pub fn widths_agree()
    ensures { WidthsAgree }
{}

/// An overlay depends neither on the order of its contours nor on where each of them starts.
pub fn order_does_not_matter()
    ensures { OrderDoesNotMatter }
{}

/// With all contours reversed `EvenOdd` and `NonZero` answer the same, and `Positive` and `Negative` change places. Of `AtLeast` this says
/// nothing.
pub fn reversal_exchanges_signs()
    ensures { ReversalExchangesSigns }
{
    redrawing_passes_overlays();
}

/// With subject and clip exchanged `Union`, `Intersect` and `Xor` answer the same, and `Difference` and `InverseDifference` change
/// places.
pub fn exchange_exchanges_rules()
    ensures { ExchangeExchangesRules }
{
    redrawing_passes_overlays();
}

/// Queries by rules that fill the same windings answer alike, those of strings too. So each answers by `AtLeast` of 1 as by `Positive`.
pub fn alike_rules_answer_alike()
    ensures { AlikeRulesAnswerAlike }
{
    once_is_positive();
    alike_rules_link_alike();
}

/// So do queries for edges with data, whatever the data are.
pub fn alike_rules_list_alike<D>()
    ensures { (fill other : FillRule) (rule : OverlayRule) (es : List (Entry (Count × D))) → FillAlike fill other →
        boundary_vectors fill rule es ≡ boundary_vectors other rule es }
{}

/// With subject and clip exchanged, the one is within the other just where the other covers it.
pub fn covers_is_within_exchanged()
    ensures { CoversIsWithinExchanged }
{
    redrawing_passes_overlays();
}

/// Where the points of the subject lie in one box and those of the clip in another, and the two boxes share no point, subject and clip are
/// disjoint, and related in no other way, whatever the fill rule and the precision.
pub fn apart_is_disjoint()
    ensures { ApartIsDisjoint }
{
    passes_rearrange::<ShapeCountBoolean>();
    redrawing_comes_to_rest::<ShapeCountBoolean>();
    redrawn_maps_are_balanced();
    groups_redraw_alone::<ShapeCountBoolean>();
    groups_fill_alone();
    redrawing_passes_counts::<ShapeCountBoolean, ShapeCountBoolean>();
}

/// Interiors meet just where the intersection has a contour, and the subject is within the clip just where it has one and the difference has
/// none: for one builder, and for two that hold the same contours, if edges that cross do so at whole points.
pub fn predicates_agree_with_overlays()
    ensures { PredicatesAgreeWithOverlays }
{
    passes_rearrange::<ShapeCountBoolean>();
    redrawing_comes_to_rest::<ShapeCountBoolean>();
    redrawn_maps_are_balanced();
    filled_is_bounded();
    answers_are_orderly();
    whole_meetings_keep_windings();
    held_winds_as_given();
}

/// Areas add up: a union and an intersection have together what subject and clip have, and the other overlays what they take of them.
pub fn areas_add_up()
    ensures { AreasAddUp }
{
    passes_rearrange::<ShapeCountBoolean>();
    redrawing_comes_to_rest::<ShapeCountBoolean>();
    redrawn_maps_are_balanced();
    answers_are_orderly();
}

/// Two overlays whose redrawn maps have the same boundary, with the region on the same sides, have one answer by equal options.
pub fn equal_boundaries_answer_alike()
    ensures { EqualBoundariesAnswerAlike }
{}

/// An answer with all its points comes back, point for point, where it is handed back alone, under `Subject` and `NonZero`, by equal options.
pub fn answers_come_back()
    ensures { AnswersComeBack }
{
    passes_rearrange::<ShapeCountBoolean>();
    redrawing_comes_to_rest::<ShapeCountBoolean>();
    redrawn_maps_are_balanced();
    redrawing_is_stable::<ShapeCountBoolean>();
    answers_are_orderly();
    passing_winds();
}

/// An answer that is handed back alone, thinned or not, under `Subject` and `NonZero` in the same direction, winds round every point as it did.
pub fn answers_come_back_winding()
    ensures { AnswersComeBackWinding }
{
    passes_rearrange::<ShapeCountBoolean>();
    redrawing_comes_to_rest::<ShapeCountBoolean>();
    redrawn_maps_are_balanced();
    filled_is_bounded();
    answers_are_orderly();
    answers_wind();
    corners_stay();
    whole_meetings_keep_windings();
    held_winds_as_given();
}

/// Each contour of an answer with all its points meets itself in ends alone, no two of its edges the same.
pub fn answers_are_resolved()
    ensures { AnswersAreResolved }
{
    passes_rearrange::<ShapeCountBoolean>();
    redrawing_comes_to_rest::<ShapeCountBoolean>();
    redrawn_maps_are_balanced();
    answers_are_orderly();
}

/// Where each key of the held map lies in one of some boxes, no two of which share a point, and no least area is set, the shapes in a box are, in
/// order, the overlay of the edges there alone, at the same precision, by the same options and rules; and each shape lies in one box.
pub fn groups_are_overlaid_alone()
    ensures { GroupsAreOverlaidAlone }
{
    passes_rearrange::<ShapeCountBoolean>();
    redrawing_comes_to_rest::<ShapeCountBoolean>();
    redrawn_maps_are_balanced();
    groups_redraw_alone::<ShapeCountBoolean>();
    groups_are_answered_alone();
}

/// Where each contour lies in one of some boxes, no two of which share a point, a builder holds of them what makes groups: its part in a
/// box holds the contours of that box.
pub fn contours_make_groups()
    ensures { ContoursMakeGroups }
{}

/// Of contours that lie so, the shapes in a box are the overlay of that box's contours alone: each tile of a map may be answered for itself.
pub fn tiles_answer_alike()
    ensures { TilesAnswerAlike }
{
    order_does_not_matter();
    groups_are_overlaid_alone();
    groups_redraw_alone::<ShapeCountBoolean>();
}

/// Contours touch, and never cross: at a point at which two of their passes meet, both points of the one lie on the same side of the other.
pub fn passes_never_cross()
    ensures { PassesNeverCross }
{
    points_have_rings();
    node_ring();
}

/// An answer without a least area, its contours not parted, contains a point just where the region is there: some shape does, being inside of an odd
/// number of whose contours the point is. So `contains_points` of the answer tells of a point off its contours whether it belongs to the region.
pub fn answers_contain()
    ensures { AnswersContain }
{
    passes_rearrange::<ShapeCountBoolean>();
    redrawing_comes_to_rest::<ShapeCountBoolean>();
    redrawn_maps_are_balanced();
    points_have_rings();
    node_ring();
    all_are_walked();
    anchors_are_sided();
    answer_winds();
    least_of_zero_keeps_all();
}

/// All points of an answer lie in each box in which all given points lie, whatever the options, the rules and the precision.
pub fn answers_stay_in_the_box()
    ensures { AnswersStayInTheBox }
{
    passes_rearrange::<ShapeCountBoolean>();
    redrawing_comes_to_rest::<ShapeCountBoolean>();
    redrawn_maps_are_balanced();
    answers_stand_on_ends();
}

/// All points of a clip lie in each box in which all points of the shape and of the strings lie, whatever the rules and the precision.
pub fn clips_stay_in_the_box()
    ensures { ClipsStayInTheBox }
{
    passes_rearrange::<ShapeCountString>();
}

/// So do all points of the pieces of a slice.
pub fn slices_stay_in_the_box()
    ensures { SlicesStayInTheBox }
{
    passes_rearrange::<ShapeCountString>();
    loops_keep_steps();
}

/// All edges that are answered with their sides lie in each box in which all held edges do: one by one or in shapes, simplified or not, and
/// whatever data they carry.
pub fn vectors_stay_in_the_box<I: OverlayInt, D: OverlayEdgeData<ShapeCountBoolean>>()
    ensures { VectorsStayInTheBox I.value (MayBeTurned D.JOINS D.turns_to) }
{
    passes_rearrange::<ShapeCountBoolean>();
    redrawing_comes_to_rest::<ShapeCountBoolean>();
    redrawn_maps_are_balanced();
    answers_stand_on_ends();
}

/// Where held edges that cross do so at whole points, and their absolute counts sum to less than 2^31, no query is refused with `Count`. The
/// edges of contours sum so until a query has redrawn them.
pub fn counts_never_leave_their_range()
    ensures { CountsNeverLeaveTheirRange }
{
    whole_marks_stay();
    marks_stand_along_their_edge();
    one_pass_is_enough::<ShapeCountBoolean>();
    redrawing_comes_to_rest::<ShapeCountBoolean>();
    passes_rearrange::<ShapeCountBoolean>();
    whole_meetings_keep_windings();
}
