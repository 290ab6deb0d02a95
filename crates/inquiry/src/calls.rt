// The calls of an inquiry, and their answers.
use base::Refusal;

// A call, with the buffer that `List` and `Without` write to.
#[derive(Drop)]
pub enum Call {
    Retire(u32),
    Restore(u32),
    Verdict,
    Core,
    CoreByGroups,
    Common,
    List(Vec<u32>),
    Without(u32, Vec<u32>),
}

// What a call answers, or why it is refused, with the buffer handed back.
#[derive(Drop)]
pub enum Answer {
    // how many items the scope now has
    Counted(Result<u32, Refusal>),
    // the scope's verdict
    Judged(bool),
    // a core, or the common items
    Chosen(Result<u32, Refusal>),
    // how many cores stand in the buffer
    Listed(Result<u32, Refusal>, Vec<u32>),
}
