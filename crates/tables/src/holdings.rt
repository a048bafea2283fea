ghost use Rattle.std.specs.Prelude.{◌≡◌, ◌<◌};
ghost use Rattle.tables.specs.Holdings.{has_way, with_way, nothing, rights_on, listed, with_rights, with_passage};

use crate::holding::{Holding, Passage, Ways};
use label::numbers::{Dom, Typ};
use label::rights::Rights;

impl Ways {
    fn has(self, how: Passage) -> bool
        ensures { result ≡ has_way self how }
    {
        match how {
            Passage::Auto => self.auto,
            Passage::Exec => self.exec,
        }
    }

    fn with(self, how: Passage) -> Ways
        ensures { result ≡ with_way self how }
    {
        match how {
            Passage::Auto => Ways { auto: true, ..self },
            Passage::Exec => Ways { exec: true, ..self },
        }
    }
}

impl Holding {
    pub(crate) fn nothing() -> Holding
        ensures { result ≡ nothing }
    {
        Holding {
            rights: [Rights::none(); 64],
            passages: [Ways::default(); 32],
        }
    }

    // The rights on a type: none on what is no type's number.
    pub fn rights_on(&self, typ: Typ) -> Rights
        ensures { result ≡ rights_on self.now typ.0 }
    {
        self.rights
            .get(typ.0 as usize)
            .copied()
            .unwrap_or(Rights::none())
    }

    // Whether a passage to the domain is listed: never to what is no domain's number.
    pub fn lists(&self, how: Passage, dom: Dom) -> bool
        ensures { result ≡ listed self.now how dom.0 }
    {
        self.passages
            .get(dom.0 as usize)
            .is_some_and(|ways| ways.has(how))
    }

    pub(crate) fn add_rights(&mut self, typ: Typ, rights: Rights)
        requires { typ.0 < 64 }
        ensures { self.new ≡ with_rights self.old typ.0 rights }
    {
        let t = typ.0 as usize;
        self.rights[t] = self.rights[t].union(rights);
    }

    pub(crate) fn add_passage(&mut self, how: Passage, dom: Dom)
        requires { dom.0 < 32 }
        ensures { self.new ≡ with_passage self.old how dom.0 }
    {
        let e = dom.0 as usize;
        self.passages[e] = self.passages[e].with(how);
    }
}
