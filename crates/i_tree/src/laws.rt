//! Laws of the definitions, each the contract of a function that does nothing.
ghost use Rattle.i_tree.specs.EntryLaws.{InsertionAddsOne, TimeKeepsTheLive, LiveInsertionAddsOne, TestsPassInsertion, TestsPassTime, TestsPassLiveInsertion};
ghost use Rattle.i_tree.specs.EntryLaws.{ComparingIsMonotone, LastIsGreatest, LastBelowIsGreatest, AnswerIsGreatest};

/// Along entries whose keys rise, comparing with a key is monotone where the order is lawful among them and the key. So
/// `first_less_or_equal_by` may seek a key by the keys' own order.
pub fn orders_are_monotone<K, V>()
    ensures { ComparingIsMonotone K V }
{}

/// Among the entries after an insertion are the new one and the old ones, and no other. Among those live at a time are the
/// ones that are live then.
pub fn entries_are_new_or_old<K, E, V>()
    ensures placed { InsertionAddsOne K V }
    ensures live { TimeKeepsTheLive K E V }
    ensures both { LiveInsertionAddsOne K E V }
{}

/// A test passes all entries after an insertion exactly where it passes the new one and the old ones; those live at a
/// time exactly where it passes each that is live then.
pub fn tests_pass_insertions<K, E, V>()
    ensures placed { TestsPassInsertion K V }
    ensures live { TestsPassTime K E V }
    ensures both { TestsPassLiveInsertion K E V }
{}

/// Among entries whose keys rise a query answers the value of the greatest entry below, or the default: `first_less` of
/// the greatest below its key, `first_less_or_equal_by` of the greatest that is Less, where none is Equal.
pub fn answers_are_greatest<K, V>()
    ensures by { LastIsGreatest K V }
    ensures below { LastBelowIsGreatest K V }
    ensures answer { AnswerIsGreatest K V }
{}
