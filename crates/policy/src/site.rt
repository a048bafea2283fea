//! A path, and what the tables of a policy say of it, whatever domain asks.
ghost use Rattle.std.specs.Prelude.{◌≡◌, ◌≤◌, length, Some};
ghost use Rattle.std.proofs.Props.{props};
ghost use Rattle.tables.specs.Entries.{Entered};
ghost use Rattle.policy.specs.Grants.{type_at, Above};
ghost use Rattle.policy.specs.Holds.{model_of};

use crate::complete::Policy;
use label::numbers::Typ;

#[derive(Clone, Copy)]
pub struct Site<'a> {
    pub(crate) policy: &'a Policy,
    pub(crate) path: &'a [u8],
    // the type of each ancestor, by its length
    pub(crate) above: [Option<Typ>; 64],
    // the path's own type
    pub(crate) typ: Typ,
    // the domains of which the path is an entry path, by number: a mark for each that there may be
    pub(crate) entered: [bool; 32],
    ghost short: { length path.now ≤ 64 },
    ghost ancestors: { Above (model_of policy.now) path.now above (length path.now) } by { Prim.hlevel props },
    ghost typed: { Some typ ≡ type_at (model_of policy.now) path.now } by { Prim.hlevel props },
    ghost enters: { Entered (model_of policy.now).entries path.now entered },
}
