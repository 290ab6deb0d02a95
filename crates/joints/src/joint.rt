// A joint between two bodies.
use criterion::Group;

#[derive(Clone, Copy, PartialEq, Eq, Debug)]
pub struct Joint {
    pub first: u8,
    pub second: u8,
    pub class: Group,
}
