//! Maps: sorted lists of segments, one on each pair of ends. A map is made of any list (`normal`), or of what a pass kept and what it
//! cut (`merge`), which tells the next pass what need not be looked at (`unchanged`). What lays segments lays them by steps (`step`).

pub(crate) mod merge;
pub(crate) mod normal;
pub(crate) mod step;
pub(crate) mod unchanged;
