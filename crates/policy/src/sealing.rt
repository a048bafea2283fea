//! Sealing a policy, and looking up what was decided.
ghost use Rattle.std.specs.Prelude.{◌≡◌, ℕ, ◌<◌, ◌≤◌, true, false, length, if◌then◌else◌, Ok, Err, IfOk, IfErr};
ghost use Rattle.label.specs.Texts.{text};
ghost use Rattle.label.specs.declared.refusal.Refusal.TheVariants.{NoObject};
ghost use Rattle.tables.specs.Model.{no_domain};
ghost use Rattle.policy.specs.Grants.{path_of, no_object};
ghost use Rattle.policy.specs.Cells.{known};
ghost use Rattle.policy.specs.Holds.{model_of, decision, read_decision};
ghost use Rattle.policy.specs.Passages.{passage_to, runs, entered, pass, auto};
ghost use Rattle.policy.specs.Sheets.{SheetFor, CellsMade, TypesMade, type_number, sheet_at, blank_sheet};

use crate::cell::{Cell, Sheet};
use crate::complete::Policy;
use crate::sealed::Sealed;
use label::numbers::{Dom, Obj, Typ};
use label::path::Path;
use label::refusal::Refusal;
use label::rights::Rights;
use std::array;
use tables::holding::Passage;

impl Sheet {
    // What stands where there is no object.
    fn blank() -> Sheet
        ensures { result ≡ blank_sheet }
    {
        let cell = Cell {
            barrier: None,
            long: 0,
            letters: Rights::none(),
            enters: false,
            target: None,
        };
        Sheet {
            typ: Typ(0),
            cells: [cell; 32],
        }
    }
}

impl Policy {
    // What is decided about an object with this path.
    fn sheet(&self, path: &Path) -> Sheet
        ensures { SheetFor (model_of self.now) (text path.now) result }
    {
        let site = self.site(path);
        Sheet {
            typ: site.typ,
            cells: array::from_fn(|d| site.cell(Dom(d as u8))),
        }
    }

    // What is decided about the object with this number, and the blank sheet if there is none.
    fn sheet_of(&self, o: usize, blank: Sheet) -> Sheet
        ensures { o < length (model_of self.now).objects → SheetFor (model_of self.now) (path_of (model_of self.now) o) result }
    {
        self.tables
            .objects()
            .get(o)
            .map_or(blank, |path| self.sheet(path))
    }

    // Sealing cannot fail and a decision allocates nothing, so there is room for every object that a policy may have.
    fn sheets(&self) -> [Sheet; 128]
        ensures cells { CellsMade self.now result }
        ensures types { TypesMade self.now result }
    {
        let blank = Sheet::blank();
        array::from_fn(
            |o|
                ensures { o < length (model_of self.entry.now).objects → SheetFor (model_of self.entry.now) (path_of (model_of self.entry.now) o) result }
            { self.sheet_of(o, blank) },
        )
    }

    // Makes every decision on the objects, once.
    pub fn seal(self) -> Sealed
        ensures { result.policy ≡ self }
    {
        let sheets = self.sheets();
        Sealed {
            policy: self,
            sheets,
        }
    }
}

impl Sealed {
    pub fn policy(&self) -> &Policy
        ensures { result.now ≡ self.now.policy }
    {
        &self.policy
    }

    // The policy without what was decided.
    pub fn into_policy(self) -> Policy
        ensures { result ≡ self.policy }
    {
        let Sealed { policy, sheets: _ } = self;
        policy
    }

    // Whether no object has the number.
    pub fn no_object(&self, obj: Obj) -> bool
        ensures { result ≡ no_object (model_of self.now.policy) obj.0 }
    {
        self.policy.tables.objects().len() <= obj.0 as usize
    }

    // Whether no domain has the number.
    pub fn no_domain(&self, dom: Dom) -> bool
        ensures { result ≡ no_domain (model_of self.now.policy) dom.0 }
    {
        self.policy.tables.no_domain(dom)
    }

    // What is decided about the object, if there is one.
    fn sheet(&self, obj: Obj) -> Result<&Sheet, Refusal>
        ensures there { IfOk result (λ s. (no_object (model_of self.now.policy) obj.0 ≡ false) × (s.now ≡ sheet_at self.now.sheets obj.0)) }
        ensures missing { IfErr result (λ e. (no_object (model_of self.now.policy) obj.0 ≡ true) × (e ≡ NoObject)) }
    {
        if self.no_object(obj) {
            return Err(Refusal::NoObject);
        }
        Ok(&self.sheets[usize::from(obj.0)])
    }

    // What is decided about the domain and the object, if there are both.
    fn cell(&self, dom: Dom, obj: Obj) -> Result<Cell, Refusal>
        ensures { result ≡ known (model_of self.now.policy) dom.0 obj.0 }
    {
        let sheet = self.sheet(obj)?;
        if self.no_domain(dom) {
            return Err(Refusal::NoDomain);
        }
        Ok(sheet.cells[usize::from(dom.0)])
    }

    // The type of the object.
    pub fn type_of(&self, obj: Obj) -> Result<Typ, Refusal>
        ensures { result ≡ (if no_object (model_of self.now.policy) obj.0 then Err NoObject else Ok (record { 0 = type_number (model_of self.now.policy) obj.0 })) }
    {
        Ok(self.sheet(obj)?.typ)
    }

    // Whether the domain is granted the letter on the object.
    pub fn decide(&self, dom: Dom, obj: Obj, letter: char) -> Result<(), Refusal>
        ensures { result ≡ decision (model_of self.now.policy) dom.0 obj.0 letter }
    {
        self.cell(dom, obj)?.grant(letter).map_err(Refusal::Denied)
    }

    // Whether the domain may read the object, by r or x.
    pub fn decide_read(&self, dom: Dom, obj: Obj) -> Result<(), Refusal>
        ensures { result ≡ read_decision (model_of self.now.policy) dom.0 obj.0 }
    {
        self.cell(dom, obj)?.grant_read().map_err(Refusal::Denied)
    }

    fn lists(&self, dom: Dom, to: Dom) -> bool
        ensures { result ≡ passage_to (model_of self.now.policy) dom.0 to.0 }
    {
        self.policy.tables.lists(dom, Passage::Auto, to)
            || self.policy.tables.lists(dom, Passage::Exec, to)
    }

    // Whether the domain may run the object.
    fn runs(&self, dom: Dom, obj: Obj) -> bool
        ensures { result ≡ runs (model_of self.now.policy) dom.0 obj.0 }
    {
        self.decide(dom, obj, 'x').is_ok()
    }

    // Whether the object's path is an entry path of the domain.
    fn enters(&self, obj: Obj, dom: Dom) -> bool
        ensures { result ≡ entered (model_of self.now.policy) obj.0 dom.0 }
    {
        self.cell(dom, obj).is_ok_and(|cell| cell.enters)
    }

    // Whether the domain may pass to the other by the object.
    #[tactic(auto, unfolding(crate::specs::Passages::pass))]
    pub fn passes(&self, dom: Dom, obj: Obj, to: Dom) -> bool
        ensures { result ≡ pass (model_of self.now.policy) dom.0 obj.0 to.0 }
    {
        self.runs(dom, obj) && self.enters(obj, to) && self.lists(dom, to)
    }

    // The domain to which a run of the object without a wish passes.
    pub fn auto(&self, dom: Dom, obj: Obj) -> Option<Dom>
        ensures { result ≡ auto (model_of self.now.policy) dom.0 obj.0 }
    {
        let cell = self.cell(dom, obj).ok()?;
        cell.grant('x').ok().and(cell.target)
    }
}
