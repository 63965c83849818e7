//! Counts, segments and solvers.

use super::splitting::are_equal;
use super::{segment_from, segments_from};
use plane_base::fault::Fault;
use plane_base::point::IntPoint;
use segment_split::count::{
    STRING_BACK_CLIP, STRING_FORWARD_CLIP, ShapeCountBoolean, ShapeCountString, WindingCount,
};
use segment_split::data::{EdgeDataMerge, EdgeDataSplit, OverlayEdgeData};
use segment_split::lines::guesses::Guesses;
use segment_split::segment::Segment;
use segment_split::solver::{Precision, Solver, Strategy, precisions_are_these, solvers_are_these};
use std::test::Fail;

#[test]
fn joins_counts_in_their_range(rt: HostRuntime) {
    let many = ShapeCountBoolean::new(2147483646, -2147483647);
    let one = ShapeCountBoolean::new(1, 0);
    assert!(rt; many.add(one) == Ok(ShapeCountBoolean::new(2147483647, -2147483647)));
    assert!(rt; many.add(ShapeCountBoolean::new(2, 0)) == Err(Fault::Count));
    assert!(rt; many.add(ShapeCountBoolean::new(0, -1)) == Err(Fault::Count));
    assert!(rt; many.invert() == ShapeCountBoolean::new(-2147483646, 2147483647));
    assert!(rt; !one.is_empty());
    assert!(rt; ShapeCountBoolean::new(0, 0).is_empty());
}

#[test]
fn joins_and_turns_all_masks(rt: HostRuntime) -> Result<(), Fail> {
    assert_eq!(rt; STRING_FORWARD_CLIP, 1);
    assert_eq!(rt; STRING_BACK_CLIP, 2);
    let masks: [u8; 4] = [0, 1, 2, 3];
    let joined: [[u8; 4]; 4] = [[0, 1, 2, 3], [1, 1, 3, 3], [2, 3, 2, 3], [3, 3, 3, 3]];
    let turned: [u8; 4] = [0, 2, 1, 3];
    for i in 0..4 {
        let one = ShapeCountString {
            subj: 5,
            clip: masks[i] % 4,
        };
        let back = one.invert();
        assert_eq!(rt; back.subj, -5);
        assert_eq!(rt; back.clip, turned[i], "at {i}");
        for j in 0..4 {
            let other = ShapeCountString {
                subj: -5,
                clip: masks[j] % 4,
            };
            let sum = one.add(other)?;
            assert_eq!(rt; sum.subj, 0);
            assert_eq!(rt; sum.clip, joined[i][j], "at {i} {j}");
            assert_eq!(rt; sum.is_empty(), i == 0 && j == 0, "at {i} {j}");
        }
    }
    Ok(())
}

#[test]
fn joins_subjects_of_strings_in_their_range(rt: HostRuntime) {
    let many = ShapeCountString::new(i32::MAX, 1);
    let line = ShapeCountString::new(0, -7);
    assert_eq!(rt; many.clip, STRING_BACK_CLIP);
    assert_eq!(rt; line.clip, STRING_FORWARD_CLIP);
    assert_eq!(rt; ShapeCountString::new(3, 0).clip, 0);
    assert!(rt;
        many.add(line)
            == Ok(ShapeCountString {
                subj: i32::MAX,
                clip: 3
            })
    );
    assert!(rt; many.add(ShapeCountString::new(1, 0)) == Err(Fault::Count));
    assert!(rt; many.invert().add(ShapeCountString::new(-1, 0)) == Err(Fault::Count));
    assert!(rt; !ShapeCountString::new(1, 0).is_empty());
    assert!(rt; !line.is_empty());
    assert!(rt; ShapeCountString::new(0, 0).is_empty());
}

#[test]
fn turns_a_step_that_runs_back(rt: HostRuntime) -> Result<(), Fail> {
    let back = segment_from(((5, 1), (0, 2), 1, -3));
    let stored = segment_from(((0, 2), (5, 1), -1, 3));
    assert!(rt; back == stored);
    match back {
        Some(segment) => {
            assert_eq!(rt; segment.x_segment.a, IntPoint::new(0, 2));
            assert_eq!(rt; segment.x_segment.b, IntPoint::new(5, 1));
            assert!(rt; segment.count == ShapeCountBoolean::new(-1, 3));
            let copy = segment.clone()?;
            assert!(rt; copy.x_segment == segment.x_segment && copy.count == segment.count);
        }
        None => panic!(rt; "the step has a length"),
    }
    Ok(())
}

#[test]
fn orders_segments_by_their_ends_alone(rt: HostRuntime) -> Result<(), Fail> {
    let alloc = rt.alloc();
    let mut segments = segments_from(
        alloc,
        &[
            ((1, 0), (2, 0), 1, 0),
            ((0, 0), (9, 9), 5, 0),
            ((0, 0), (9, 9), 2, 0),
        ],
    )?;
    segments.sort()?;
    let sorted = segments_from(
        alloc,
        &[
            ((0, 0), (9, 9), 5, 0),
            ((0, 0), (9, 9), 2, 0),
            ((1, 0), (2, 0), 1, 0),
        ],
    )?;
    assert!(rt; are_equal(&segments, &sorted));
    Ok(())
}

#[test]
fn keeps_no_data(rt: HostRuntime) {
    let cut = EdgeDataSplit {
        a: IntPoint::new(0, 0),
        p: IntPoint::new(1, 1),
        b: IntPoint::new(2, 2),
    };
    let joined = EdgeDataMerge {
        lhs_data: (),
        rhs_data: (),
        lhs_count: ShapeCountBoolean::new(1, 0),
        rhs_count: ShapeCountBoolean::new(1, 0),
    };
    let both = OverlayEdgeData::<ShapeCountBoolean>::split((), cut, &mut ());
    assert!(rt; both == ((), ()));
    assert!(rt; OverlayEdgeData::<ShapeCountBoolean>::reversed((), &mut ()) == ());
    assert!(rt; <() as OverlayEdgeData<ShapeCountBoolean>>::merge(joined, &mut ()) == ());
    assert!(rt; <() as OverlayEdgeData<ShapeCountBoolean>>::JOINS);
}

#[test]
fn knows_its_solvers(rt: HostRuntime) {
    assert!(rt; Solver::default() == Solver::AUTO);
    assert!(rt; Solver::with_precision(Precision::HIGH) == Solver::AUTO);
    assert!(rt;
        Solver::with_strategy_and_precision(Strategy::List, Precision::HIGH) == Solver::LIST
    );
    assert!(rt;
        Solver::with_strategy_and_precision(Strategy::Tree, Precision::HIGH) == Solver::TREE
    );
    assert!(rt;
        Solver::with_strategy_and_precision(Strategy::Frag, Precision::HIGH) == Solver::FRAG
    );
}

#[test]
fn has_these_precisions_and_solvers(rt: HostRuntime) {
    precisions_are_these();
    solvers_are_these();
    assert_eq!(rt; Precision::MEDIUM_LOW.start, 2);
    assert_eq!(rt; Precision::MEDIUM_LOW.progression, 2);
    assert!(rt; Solver::TREE.strategy == Strategy::Tree);
}

#[test]
fn widens_the_radius_from_pass_to_pass(rt: HostRuntime) {
    assert_eq!(rt; Precision::ABSOLUTE.radius(300), 1);
    assert_eq!(rt; Precision::HIGH.radius(3), 8);
    assert_eq!(rt; Precision::MEDIUM_HIGH.radius(3), 16);
    assert_eq!(rt; Precision::MEDIUM.radius(3), 64);
    assert_eq!(rt; Precision::MEDIUM_LOW.radius(3), 256);
    assert_eq!(rt; Precision::LOW.radius(3), 2048);
    assert_eq!(rt; Precision::LOW.radius(20), 1 << 60);
    assert_eq!(rt;
        Precision {
            start: usize::MAX,
            progression: usize::MAX
        }
        .radius(usize::MAX),
        1 << 60
    );
}

#[test]
fn tells_counts_that_are_sums(rt: HostRuntime) {
    let count = ShapeCountBoolean::new(3, -4);
    assert!(rt; <ShapeCountBoolean as WindingCount>::ADDS);
    assert!(rt; <ShapeCountBoolean as WindingCount>::sums(count) == count);
    assert!(rt; !<ShapeCountString as WindingCount>::ADDS);
    assert!(rt; <() as OverlayEdgeData<ShapeCountBoolean>>::is_bare());
}

#[test]
fn exchanges_lists_of_one_type(rt: HostRuntime) -> Result<(), Fail> {
    let mut own = segments_from(
        rt.alloc(),
        &[((0, 0), (4, 0), 1, 0), ((0, 0), (0, 4), -1, 0)],
    )?;
    let mut other = segments_from(rt.alloc(), &[((4, 0), (4, 4), 1, 0)])?;
    assert!(rt; <ShapeCountBoolean as WindingCount>::exchange(&mut own, &mut other));
    assert_eq!(rt; own.len(), 1);
    assert_eq!(rt; other.len(), 2);
    assert!(rt; <() as OverlayEdgeData<ShapeCountBoolean>>::exchange(&mut own, &mut other));
    assert_eq!(rt; own.len(), 2);
    assert_eq!(rt; other.len(), 1);
    let mut strings: Vec<Segment<ShapeCountString, i32, ()>> = Vec::new(rt.alloc());
    assert!(rt; !<ShapeCountString as WindingCount>::exchange(&mut strings, &mut other));
    assert_eq!(rt; strings.len(), 0);
    assert_eq!(rt; other.len(), 1);
    Ok(())
}

#[test]
fn guesses_what_it_was_told(rt: HostRuntime) -> Result<(), Fail> {
    let mut guesses = Guesses::new(rt.alloc());
    guesses.tell(5, 2);
    assert_eq!(rt; guesses.place(5), 0);
    guesses.reset(100)?;
    for y in [i64::MIN, -7, 0, 5, i64::MAX] {
        guesses.tell(y, 3);
        assert_eq!(rt; guesses.place(y), 3, "at {y}");
    }
    guesses.reset(100)?;
    assert_eq!(rt; guesses.place(5), 0);
    Ok(())
}
