//! Looking things up in the tables.
ghost use Rattle.std.specs.Prelude.{◌≡◌, ◌<◌, ◌≤◌, map, length, IfSome};
ghost use Rattle.std.specs.Option.{option_map};
ghost use Rattle.label.specs.Texts.{name_text, text as path_text};
ghost use Rattle.lists.specs.Places.{place_of};
ghost use Rattle.rules.specs.Held.{rules_of};
ghost use Rattle.tables.specs.Holdings.{rights_on, listed};
ghost use Rattle.tables.specs.Model.{model, holding_of};

use crate::entry::Entries;
use crate::holding::Passage;
use crate::table::{Apart, Tables};
use label::name::Name;
use label::numbers::{Dom, Obj, Typ};
use label::path::Path;
use label::rights::Rights;
use rules::table::Rules;

impl Tables {
    // The names of the types, by number.
    pub fn types(&self) -> &[Name]
        ensures { result.now ≡ (model self.now).types }
    {
        self.types.as_slice()
    }

    // The names of the domains, by number.
    pub fn domains(&self) -> &[Name]
        ensures { result.now ≡ (model self.now).domains }
    {
        self.domains.as_slice()
    }

    // How many domains there are.
    pub fn domain_count(&self) -> u8
        ensures { result ≡ length (model self.now).domains }
    {
        self.domains.count() as u8
    }

    // The paths of the objects, by number.
    pub fn objects(&self) -> &[Path]
        ensures objects { result.now ≡ (model self.now).objects }
        ensures few { length result.now ≤ 128 }
    {
        self.objects.as_slice()
    }

    // How many objects there are.
    pub fn object_count(&self) -> u8
        ensures { result ≡ length (model self.now).objects }
    {
        self.objects.count() as u8
    }

    // The default domain.
    pub fn first(&self) -> Option<Dom>
        ensures value { result ≡ (model self.now).first }
        ensures declared { IfSome result (λ d. d.0 < length (model self.now).domains) }
    {
        self.first
    }

    pub fn rules(&self) -> &Rules
        ensures { rules_of result.now ≡ (model self.now).rules }
    {
        &self.rules
    }

    pub fn entries(&self) -> &Entries
        ensures { result.now.list.items ≡ (model self.now).entries }
    {
        &self.entries
    }

    pub fn aparts(&self) -> &[Apart]
        ensures { result.now ≡ (model self.now).aparts }
    {
        self.aparts.as_slice()
    }

    // The rights of the domain on the type; none where either number is beyond its table.
    pub fn rights(&self, dom: Dom, typ: Typ) -> Rights
        ensures { result ≡ rights_on (holding_of (model self.now) dom.0) typ.0 }
    {
        self.holdings
            .get(dom.0 as usize)
            .map_or(Rights::none(), |holding| holding.rights_on(typ))
    }

    // Whether the domain lists a passage to the other.
    pub fn lists(&self, dom: Dom, how: Passage, to: Dom) -> bool
        ensures { result ≡ listed (holding_of (model self.now) dom.0) how to.0 }
    {
        self.holdings
            .get(dom.0 as usize)
            .is_some_and(|holding| holding.lists(how, to))
    }

    // The type with this name.
    pub fn type_named(&self, name: &[u8]) -> Option<Typ>
        ensures { option_map (λ t. t.0) result ≡ place_of (map name_text (model self.now).types) name.now }
    {
        self.types.find(name).map(|i| Typ(i as u8))
    }

    // The domain with this name.
    pub fn domain_named(&self, name: &[u8]) -> Option<Dom>
        ensures { option_map (λ d. d.0) result ≡ place_of (map name_text (model self.now).domains) name.now }
    {
        self.domains.find(name).map(|i| Dom(i as u8))
    }

    // The object with this path.
    pub fn object_at(&self, path: &[u8]) -> Option<Obj>
        ensures { option_map (λ o. o.0) result ≡ place_of (map path_text (model self.now).objects) path.now }
    {
        self.objects.find(path).map(|i| Obj(i as u8))
    }
}
