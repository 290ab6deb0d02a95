// A criterion with the verdicts that it gave.
ghost use Rattle.std.specs.Prelude.{◌≤◌, length};

use crate::remembered::Remembered;
use arrayvec::ArrayVec;

#[derive(Drop)]
pub struct Memory<C> {
    pub(crate) below: C,
    pub(crate) entries: ArrayVec<Remembered, 64>,
    ghost few: { length entries.items ≤ 64 },
}
