//! Laws of the map with data, each the contract of a function that does nothing.

ghost use Rattle.plane_base.specs.Counts.{Counting};
ghost use Rattle.plane_base.proofs.Facts.Maps.Normal.{IsCounting};
ghost use Rattle.segment_split.specs.Data.{IsJoin};
ghost use Rattle.segment_split.specs.DataLaws.{ForgetsData, JoinsInAnyOrder, DataComeToRest, DataIsOfSteps};
ghost use Rattle.segment_split.specs.declared.solver.Precision.{Precision};

/// Passes and redrawing look at edges and counts alone: without its data, the map with data is the map. This holds whatever
/// data are, and however they are joined.
pub fn redrawing_forgets_data<C, D>()
    ensures { (kind : Counting C) (join : D → D → D) (precision : Precision) → IsCounting kind → ForgetsData kind join precision }
{}

/// The map with data doesn't depend on the order of the entries, nor on which are joined first, as long as what counts for
/// nothing is dropped last. A map stays as it is.
pub fn data_join_in_any_order<C, D>()
    ensures { (kind : Counting C) (join : D → D → D) → IsCounting kind → IsJoin join → JoinsInAnyOrder kind join }
{}

/// A pass that marks nothing leaves the data as they are, and redrawing with data ends before any such pass.
pub fn data_come_to_rest<C, D>()
    ensures { (kind : Counting C) (join : D → D → D) (precision : Precision) → IsCounting kind → DataComeToRest kind join precision }
{}

/// Where data are joined, an edge's datum after a pass is the join of the data of all steps on it, in whatever order they are
/// taken, also of those whose counts cancel. So is that of an edge of the map that given entries stand for.
pub fn data_are_of_steps<C, D>()
    ensures { (kind : Counting C) (join : D → D → D) (precision : Precision) → IsJoin join → DataIsOfSteps kind join precision }
{}
