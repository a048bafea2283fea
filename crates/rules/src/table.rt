// At most 256 rules, no two of them with the same flag and path.
ghost use Rattle.std.specs.Prelude.{◌≡◌, ◌≤◌, true, vec_len};
ghost use Rattle.rules.specs.Typing.{distinct};

use crate::rule::Rule;

#[derive(Drop)]
pub struct Rules {
    pub(crate) list: Vec<Rule>,
    ghost few: { vec_len list ≤ 256 },
    ghost distinct: { distinct list.items ≡ true },
}
