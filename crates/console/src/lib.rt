// The console: from the bytes of an input to the bytes of the response.
#![tactic(auto)]

ghost use Rattle.console.specs.Examples.{Responses};

mod build;
mod console;
mod found;
mod input;
mod kind;
mod line;
mod lines;
mod report;
mod respond;
mod room;

pub use console::Console;
pub use line::Line;

// What is printed of some inputs, by computation.
pub fn example_responses()
    ensures examples_compute { Responses }
{}
