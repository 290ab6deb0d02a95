// Inquiries over any criterion: a scope and its calls, and the law over runs of calls.
#![tactic(auto)]

mod calls;
mod guard;
mod inquiry;
mod run;

pub use calls::{Answer, Call};
pub use inquiry::Inquiry;
pub use run::replay;
