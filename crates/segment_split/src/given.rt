//! What is given to redraw: edges, contours, paths and sources are added to a list of segments (`build`), and every builder has such a
//! list, with the splitter's room and whether a query was refused (`held`).

pub mod build;
pub mod held;
