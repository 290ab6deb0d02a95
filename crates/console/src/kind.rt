// The kinds of criterion that the console answers.
ghost use Rattle.console.specs.Kinds.{Names};

use base::Refusal;

#[derive(Clone, Copy, PartialEq, Eq, Debug)]
pub(crate) enum Kind {
    Joints,
}

impl TryFrom<u64> for Kind {
    type Error = Refusal;

    ghost try_from_gives = { Names };

    fn try_from(word: u64) -> Result<Kind, Refusal> {
        match word {
            3 => Ok(Kind::Joints),
            _ => Err(Refusal::UnknownKind),
        }
    }
}
