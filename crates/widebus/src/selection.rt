// The selection: which chips an event is for.
ghost use Rattle.std.specs.Prelude.{◌≡◌};
ghost use Rattle.widebus.specs.Selection.{selection_of, side_of, result_of};

use constants::refusal::Refusal;

// One of the two chips.
#[derive(Clone, Copy, Debug, PartialEq, Eq)]
pub enum Side {
    Left,
    Right,
}

// Left, right or both.
#[derive(Clone, Copy, Debug, PartialEq, Eq)]
pub enum Selection {
    Left,
    Right,
    Both,
}

impl TryFrom<u8> for Side {
    type Error = Refusal;

    ghost try_from_gives = { λ number side. result_of side ≡ side_of number };

    // The side of a number: 1 left, 2 right; any other is refused.
    #[tactic(auto, unfolding(crate::specs::Selection::side_of))]
    fn try_from(number: u8) -> Result<Side, Refusal> {
        match number {
            1 => Ok(Side::Left),
            2 => Ok(Side::Right),
            _ => Err(Refusal::NoSelection),
        }
    }
}

impl TryFrom<u8> for Selection {
    type Error = Refusal;

    ghost try_from_gives = { λ number selection. result_of selection ≡ selection_of number };

    // The selection of a number: 1 left, 2 right, 3 both; any other is refused.
    #[tactic(auto, unfolding(crate::specs::Selection::selection_of))]
    fn try_from(number: u8) -> Result<Selection, Refusal> {
        match number {
            1 => Ok(Selection::Left),
            2 => Ok(Selection::Right),
            3 => Ok(Selection::Both),
            _ => Err(Refusal::NoSelection),
        }
    }
}
