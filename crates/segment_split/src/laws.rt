//! Laws of passes and redrawing, each the contract of a function that does nothing.

ghost use Rattle.std.specs.Prelude.{ℕ, List};
ghost use Rattle.plane_base.specs.Counts.{Count, Counting, Entry, boolean};
ghost use Rattle.plane_base.specs.Balance.{IsBalancedMap};
ghost use Rattle.segment_split.specs.Passes.{pass};
ghost use Rattle.segment_split.specs.Redrawing.{iterate, redrawn};
ghost use Rattle.segment_split.specs.Groups.{RedrawsAlone};
ghost use Rattle.segment_split.specs.RedrawLaws.{Rearranges, MarkedUnlessParted, KeepsUnmarked, IsStable, ComesToRest, MarksFromTheFirst};
ghost use Rattle.segment_split.specs.RedrawLaws.{RedrawsToTheEnd, IsCountMap, roles_exchanged, RedrawsAnyCounts, OldPairsAreParted, OnePassIsEnough};
ghost use Rattle.segment_split.specs.TurnLaws.{CutsInTurn};
ghost use Rattle.segment_split.specs.declared.solver.Precision.{Precision};

pub mod data;
pub mod spread;

/// A pass leaves a map, strictly sorted and without empty counts, that is balanced where it was, and for which no box
/// of the ends has to grow. So do several, and so does redrawing.
pub fn passes_rearrange<C>()
    ensures pass { (kind : Counting C) (precision : Precision) (k : ℕ) → Rearranges kind (λ es. pass kind precision es k) }
    ensures iterate { (kind : Counting C) (precision : Precision) (n : ℕ) → Rearranges kind (λ es. iterate kind precision es n) }
    ensures redrawn { (kind : Counting C) (precision : Precision) → Rearranges kind (redrawn kind precision) }
{}

/// Redrawing keeps an overlay's map balanced, in subject and in clip.
pub fn redrawn_maps_are_balanced()
    ensures { (precision : Precision) (es : List (Entry Count)) → IsBalancedMap es → IsBalancedMap (redrawn boolean precision es) }
{}

/// A pass marks a map exactly where it doesn't meet in ends alone, which doesn't depend on the pass.
pub fn marked_unless_parted()
    ensures { (precision : Precision) → MarkedUnlessParted precision }
{}

/// A pass that marks nothing leaves the map as it is.
pub fn unmarked_maps_stay<C>()
    ensures { (kind : Counting C) (precision : Precision) → KeepsUnmarked kind precision }
{}

/// A map that meets in ends alone is its own redrawing, and no pass changes it.
pub fn redrawing_is_stable<C>()
    ensures { (kind : Counting C) (precision : Precision) → IsStable kind precision }
{}

/// Some pass is the first that marks nothing, and no later one marks. The redrawn map is that before it, and it meets in
/// ends alone. Once a map does, it stays.
pub fn redrawing_comes_to_rest<C>()
    ensures rests { (kind : Counting C) (precision : Precision) → ComesToRest kind precision }
    ensures marks { (kind : Counting C) (precision : Precision) → MarksFromTheFirst kind precision }
    ensures ends { (kind : Counting C) (precision : Precision) → RedrawsToTheEnd kind precision }
{}

/// Redrawing looks at edges alone: counts may be read as others before it or after it.
pub fn redrawing_passes_counts<C, D>()
    ensures { (from : Counting C) (to : Counting D) (f : C → D) (precision : Precision) → IsCountMap from to f → RedrawsAnyCounts from to f precision }
{}

/// An overlay's counts may be negated, or subject and clip exchanged, before it is redrawn or after it.
pub fn redrawing_passes_overlays()
    ensures negated { (precision : Precision) → RedrawsAnyCounts boolean boolean boolean.turned precision }
    ensures exchanged { (precision : Precision) → RedrawsAnyCounts boolean boolean roles_exchanged precision }
{}

/// Two edges that a pass left unmarked are parted. No later pass has to look at both.
pub fn old_pairs_are_parted()
    ensures { (precision : Precision) → OldPairsAreParted precision }
{}

/// Where the edges of a map cross at whole points alone, the map after a pass meets in ends alone, and is the redrawn one.
pub fn one_pass_is_enough<C>()
    ensures { (kind : Counting C) (precision : Precision) → OnePassIsEnough kind precision }
{}

/// Edges that cross all others at whole points alone may be cut in turn: at the others first, and their pieces then at each other,
/// though others of the map cross off the grid. Pieces of two such edges are parted.
pub fn cuts_in_turn<C>()
    ensures { (kind : Counting C) (precision : Precision) → CutsInTurn kind precision }
{}

/// Groups of edges, in boxes no two of which share a point, are redrawn each as if alone, though passes are shared and others
/// may need more of them. So is each pass, and the joining of what lies on one edge.
pub fn groups_redraw_alone<C>()
    ensures { (kind : Counting C) (precision : Precision) → RedrawsAlone kind precision }
{}
