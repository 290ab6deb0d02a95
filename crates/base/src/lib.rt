// What every layer shares: refusals with their numbers, the reading of sheets and the writing of buffers.
#![tactic(auto)]

mod numbers;
mod places;
mod reader;
mod refusal;
mod sheet;

pub use places::write;
pub use reader::Reader;
pub use refusal::Refusal;
pub use sheet::{AtMost, WordRule};
