//! Declared names in statements.
ghost use Rattle.std.specs.Prelude.{◌≡◌, cond, Err};
ghost use Rattle.label.specs.Tests.{is_name as name_test};
ghost use Rattle.reader.specs.Composed.{composed};
ghost use Rattle.reader.specs.Statements.{type_named, domain_named, or_refuse};
ghost use Rattle.reader.specs.declared.reason.Reason.TheVariants.{Misshapen, Undeclared};

use crate::composition::Composition;
use crate::reason::Reason;
use label::names::is_name;
use label::numbers::{Dom, Typ};

// What the word stands for, where `found` is what was declared with it: what is no name is refused first.
#[tactic(auto, using(crate::proofs::Looks::is_a_name, crate::proofs::Looks::is_no_name))]
fn declared<T: Copy>(word: &[u8], found: Option<T>) -> Result<T, Reason>
    ensures { result ≡ cond (name_test word.now) (or_refuse Undeclared found) (Err Misshapen) }
{
    if !is_name(word) {
        return Err(Reason::Misshapen);
    }
    // What is read stands in front, and the fault beside it.
    let Some(named) = found else {
        return Err(Reason::Undeclared);
    };
    Ok(named)
}

impl Composition {
    // A declared type.
    pub(crate) fn type_named(&self, word: &[u8]) -> Result<Typ, Reason>
        ensures { result ≡ type_named (composed self.now) word.now }
    {
        declared(word, self.tables.type_named(word))
    }

    // A declared domain.
    pub(crate) fn domain_named(&self, word: &[u8]) -> Result<Dom, Reason>
        ensures { result ≡ domain_named (composed self.now) word.now }
    {
        declared(word, self.tables.domain_named(word))
    }
}
