//! Operators over ids (Structure > Instructions), made from operators over indices and put back into them
//! (Structure > Modules > Indices).
//!
//! Read first: `src/to_ids.rt` (from indices to ids) and `specs/Names.antt` (operators put through a look-up of what they name).
//! Main clause: `named_operators_lead_back` of `src/law.rt`, a law, promises `OperatorsLeadBack`: there and back, operators are the same again.
//! It asks that the second look-up leads back what the first one finds.
#![tactic(auto)]

mod error;
mod indices;
mod items;
mod law;
mod local_numbers;
mod location;
mod numbering;
mod operator;
mod to_ids;
mod to_indices;

pub use error::IrError;
pub use indices::{IndexSpace, IndicesToIds};
pub use items::{ItemId, push_locals, push_names};
pub use law::named_operators_lead_back;
pub use local_numbers::LocalNumbers;
pub use location::InstrLocId;
pub use numbering::{IdsToIndices, Numbering};
pub use operator::{Arg, Args, BlockType, Operator};
pub use to_ids::{name_operator, name_value};
pub use to_indices::{index_operator, index_value};
