// Scopes of a criterion, and the searches for their cores, for every criterion.
#![tactic(auto)]

mod finding;
mod found;
mod listing;
mod scope;
mod scoping;
mod search;

pub use listing::list_of;
pub use scope::Scope;
pub use search::{common_of, core_by_groups_of, core_of};
