// A policy with every decision on its objects made once.
ghost use Rattle.std.specs.Prelude.{◌≡◌, ℕ, ◌<◌};
ghost use Rattle.policy.specs.Sheets.{CellsMade, TypesMade};

use crate::cell::Sheet;
use crate::complete::Policy;

#[derive(Drop)]
pub struct Sealed {
    pub(crate) policy: Policy,
    pub(crate) sheets: [Sheet; 128],
    ghost cells: { CellsMade policy sheets },
    ghost types: { TypesMade policy sheets },
}
