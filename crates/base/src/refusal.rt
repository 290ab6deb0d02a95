// Why a call is refused.
#[derive(Clone, Copy, PartialEq, Eq, Debug)]
pub enum Refusal {
    // 1: the sheet ends before the word at this index
    MissingWord(usize),
    // 3: the count at this index is above what may come
    CountTooLarge(usize),
    // 5: the sheet goes on, from this index, past its end
    WordsLeftOver(usize),
    // 6: the body word at this index is not 0
    BodyWord(usize),
    // 7: the joint word at this index breaks a rule
    JointWord(usize),
    // 8: the buffer has too few places
    TooFewPlaces,
    // 9: there is no such item
    NoSuchItem,
    // 10: the item is out of the scope already
    AlreadyOut,
    // 11: the item is in the scope already
    AlreadyIn,
    // 12: the scope gets no, so it has no core
    GetsNo,
    // 13: the cores outnumber the places
    TooManyCores,
    // 14: the input's length is no multiple of 8
    OddLength,
    // 15: the input names no kind, or one that there is not
    UnknownKind,
}
