//! Custom sections that a program makes and boxes as they are ("Binary Format > Custom Section"): what each says and does is proved here, so
//! that whoever uses one defines nothing of its own.

mod listed;
mod moves;
mod places;

pub use listed::ListedSection;
pub use places::PlacesSection;
