// Tables with a default domain and a type for every path.
ghost use Rattle.std.specs.Prelude.{◌≡◌, true, is_some, codes};
ghost use Rattle.rules.specs.Typing.{rule_on};
ghost use Rattle.rules.specs.declared.rule.Flag.TheVariants.{R};
ghost use Rattle.tables.specs.Model.{model};

use tables::table::Tables;

#[derive(Drop)]
pub struct Policy {
    pub(crate) tables: Tables,
    ghost begins: { is_some (model tables).first ≡ true },
    ghost rooted: { is_some (rule_on (model tables).rules R (codes "/")) ≡ true },
}
