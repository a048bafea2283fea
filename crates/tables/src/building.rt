//! Adding to the tables. A refused call leaves them as they were.
ghost use Rattle.std.specs.Prelude.{◌≡◌, IfOk};
ghost use Rattle.label.specs.Refusals.{Does, Takes};
ghost use Rattle.tables.specs.Holdings.{with_rights, with_passage};
ghost use Rattle.tables.specs.Model.{model, empty, holding_of, no_domain, no_type, Wants, with_type, with_domain, with_default, with_rule, with_object, with_entry, with_holding, with_apart, refuses_type, refuses_domain, refuses_default, refuses_rule, refuses_object, refuses_entry, refuses_rights, refuses_passage, refuses_apart};

use crate::entry::{Entries, Entry};
use crate::holding::{Holding, Passage};
use crate::table::{Apart, Tables};
use label::name::Name;
use label::numbers::{Dom, Typ};
use label::path::Path;
use label::refusal::Refusal;
use label::rights::Rights;
use lists::distinct::Distinct;
use rules::rule::Rule;
use rules::table::Rules;
use std::alloc::{AllocError, Global};

// Refuses what is not declared.
fn declared(undeclared: bool) -> Result<(), Refusal>
    ensures { Wants undeclared result }
{
    if undeclared {
        return Err(Refusal::Undeclared);
    }
    Ok(())
}

impl Tables {
    // Tables with nothing in them.
    pub fn new(heap: Global) -> Tables
        ensures { model result ≡ empty }
    {
        Tables {
            types: Distinct::new(heap),
            domains: Distinct::new(heap),
            first: None,
            rules: Rules::new(heap),
            objects: Distinct::new(heap),
            entries: Entries::new(heap),
            holdings: [Holding::nothing(); 32],
            aparts: Vec::new(heap),
        }
    }

    // A copy of the tables, in memory of its own. The caller names the memory, which `clone` has no way to take.
    pub fn copy(&self, heap: Global) -> Result<Tables, AllocError>
        ensures { IfOk result (λ c. model c ≡ model self.now) }
    {
        Ok(Tables {
            types: self.types.copy(heap)?,
            domains: self.domains.copy(heap)?,
            first: self.first,
            rules: self.rules.copy(heap)?,
            objects: self.objects.copy(heap)?,
            entries: self.entries.copy(heap)?,
            holdings: self.holdings,
            aparts: Vec::from_slice(heap, self.aparts.as_slice())?,
        })
    }

    // Whether no domain has the number.
    pub fn no_domain(&self, dom: Dom) -> bool
        ensures { result ≡ no_domain (model self.now) dom.0 }
    {
        self.domains.count() <= dom.0 as usize
    }

    // Whether no type has the number.
    pub fn no_type(&self, typ: Typ) -> bool
        ensures { result ≡ no_type (model self.now) typ.0 }
    {
        self.types.count() <= typ.0 as usize
    }

    // The next type.
    pub fn declare_type(&mut self, name: Name) -> Result<(), Refusal>
        ensures { Takes (refuses_type (model self.old) name) (model self.old) (with_type (model self.old) name) result (model self.new) }
    {
        self.types.add(name)
    }

    // The next domain.
    pub fn declare_domain(&mut self, name: Name) -> Result<(), Refusal>
        ensures { Takes (refuses_domain (model self.old) name) (model self.old) (with_domain (model self.old) name) result (model self.new) }
    {
        self.domains.add(name)
    }

    // The domain in which programs start.
    pub fn set_default(&mut self, dom: Dom) -> Result<(), Refusal>
        ensures { Does (refuses_default (model self.old) dom) (model self.old) (with_default (model self.old) dom) result (model self.new) }
    {
        if self.first.is_some() {
            return Err(Refusal::Repeated);
        }
        declared(self.no_domain(dom))?;
        self.first = Some(dom);
        Ok(())
    }

    // A rule for paths.
    pub fn add_rule(&mut self, rule: Rule) -> Result<(), Refusal>
        ensures { Takes (refuses_rule (model self.old) rule) (model self.old) (with_rule (model self.old) rule) result (model self.new) }
    {
        // What the rules refuse is told before an undeclared type.
        if self.rules.refuses(rule).is_none() {
            declared(self.no_type(rule.typ))?;
        }
        self.rules.add(rule)
    }

    // The next object.
    pub fn add_object(&mut self, path: Path) -> Result<(), Refusal>
        ensures { Takes (refuses_object (model self.old) path) (model self.old) (with_object (model self.old) path) result (model self.new) }
    {
        self.objects.add(path)
    }

    // An entry path of a domain.
    pub fn add_entry(&mut self, entry: Entry) -> Result<(), Refusal>
        ensures { Takes (refuses_entry (model self.old) entry) (model self.old) (with_entry (model self.old) entry) result (model self.new) }
    {
        declared(self.no_domain(entry.dom))?;
        self.entries.add(entry)
    }

    // Rights of a domain on a type, beside those that it has.
    pub fn add_rights(&mut self, dom: Dom, typ: Typ, rights: Rights) -> Result<(), Refusal>
        ensures { Does (refuses_rights (model self.old) dom.0 typ.0) (model self.old) (with_holding (model self.old) dom.0 (with_rights (holding_of (model self.old) dom.0) typ.0 rights)) result (model self.new) }
    {
        declared(self.no_domain(dom))?;
        declared(self.no_type(typ))?;
        self.holdings[dom.0 as usize].add_rights(typ, rights);
        Ok(())
    }

    // A passage of a domain to another.
    pub fn add_passage(&mut self, dom: Dom, how: Passage, to: Dom) -> Result<(), Refusal>
        ensures { Does (refuses_passage (model self.old) dom.0 to.0) (model self.old) (with_holding (model self.old) dom.0 (with_passage (holding_of (model self.old) dom.0) how to.0)) result (model self.new) }
    {
        declared(self.no_domain(dom))?;
        declared(self.no_domain(to))?;
        self.holdings[dom.0 as usize].add_passage(how, to);
        Ok(())
    }

    // A separation of two types.
    pub fn add_apart(&mut self, apart: Apart) -> Result<(), Refusal>
        ensures { Takes (refuses_apart (model self.old) apart) (model self.old) (with_apart (model self.old) apart) result (model self.new) }
    {
        if self.aparts.len() >= 128 {
            return Err(Refusal::Full);
        }
        declared(self.no_type(apart.from))?;
        declared(self.no_type(apart.to))?;
        self.aparts.push(apart)?;
        Ok(())
    }
}
