//! Bucket sorts by columns of x: of segments and other things at points (`placing`), and of the marks of a pass (`order`). One pass
//! counts and brings (`columns`), and what then stands a little out of order is settled (`settling`).

pub(crate) mod columns;
pub(crate) mod order;
pub(crate) mod placing;
mod settling;
