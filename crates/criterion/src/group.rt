// The group of an item, and its number.
ghost use Rattle.std.specs.Prelude.{◌≡◌, Ok, Err};
ghost use Rattle.criterion.specs.Groups.{NamedBy, rank};

// A core by groups has as few items of the first as it can, and then of the second.
#[derive(Clone, Copy, PartialEq, Eq, Debug)]
pub enum Group {
    First,
    Second,
    Third,
}

// 0, 1 or 2.
impl From<Group> for u8 {
    ghost from_gives = { λ group n. n ≡ rank group };

    fn from(group: Group) -> u8 {
        match group {
            Group::First => 0,
            Group::Second => 1,
            Group::Third => 2,
        }
    }
}

// The group of this number; a number above 2 comes back.
impl TryFrom<u8> for Group {
    type Error = u8;

    ghost try_from_gives = { NamedBy };

    fn try_from(number: u8) -> Result<Group, u8> {
        match number {
            0 => Ok(Group::First),
            1 => Ok(Group::Second),
            2 => Ok(Group::Third),
            _ => Err(number),
        }
    }
}
