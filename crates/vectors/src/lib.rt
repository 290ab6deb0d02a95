// Tests of the library on examples and tables, and what they need.
#![tactic(auto)]

mod always;
mod counting;

pub use always::Always;
pub use counting::Counting;

#[cfg(test)]
mod console_tests;
#[cfg(test)]
mod inquiry_tests;
#[cfg(test)]
mod joint_tests;
#[cfg(test)]
mod memory_tests;
#[cfg(test)]
mod model;
#[cfg(test)]
mod run_tests;
#[cfg(test)]
mod scenes;
#[cfg(test)]
mod sets_tests;
