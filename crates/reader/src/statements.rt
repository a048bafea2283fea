//! Statements, word by word.
ghost use Rattle.std.specs.Prelude.{◌≡◌};
ghost use Rattle.reader.specs.Composed.{composed};
ghost use Rattle.reader.specs.Statements as due;
ghost use Rattle.reader.specs.Stops.{Steps};

use crate::composition::Composition;
use crate::position::{Group, Position, Sort};
use crate::reason::Reason;
use crate::stop::Stop;
use label::name::Name;
use label::numbers::{Dom, Typ};
use label::path::Path;
use rules::rule::{Flag, Rule};
use tables::entry::Entry;
use tables::table::Apart;
use words::arrow::split_arrow;
use words::flag::flag_of;
use words::keyword::{Keyword, keyword_of};
use words::letters::letters_of;
use words::passage::passage_of;

impl Composition {
    fn declare(&mut self, sort: Sort, name: Name) -> Result<Position, Stop>
        ensures { Steps (due.declare (composed self.old) sort name) result (composed self.new) }
    {
        match sort {
            Sort::Types => self.tables.declare_type(name)?,
            Sort::Domains => self.tables.declare_domain(name)?,
        }
        Ok(Position::MoreNames(sort))
    }

    // types NAME.. and domains NAME..
    fn name_word(&mut self, sort: Sort, word: &[u8]) -> Result<Position, Stop>
        ensures { Steps (due.name_word (composed self.old) sort word.now) result (composed self.new) }
    {
        let name = Name::parse(word)?;
        self.declare(sort, name)
    }

    // default_d DOMAIN
    fn default_word(&mut self, word: &[u8]) -> Result<Position, Stop>
        ensures { Steps (due.default_word (composed self.old) word.now) result (composed self.new) }
    {
        let dom = self.domain_named(word)?;
        self.tables.set_default(dom)?;
        Ok(Position::LineEnd)
    }

    fn specify(&mut self, dom: Dom) -> Result<Position, Stop>
        ensures { Steps (due.specify (composed self.old) dom) result (composed self.new) }
    {
        // A number beyond the marks is no domain's. Once a mark lent by `get_mut` is given back, nothing would be known of the marks.
        let d = dom.0 as usize;
        if d < 32 {
            if self.specified[d] {
                return Err(Reason::Repeated.into());
            }
            self.specified[d] = true;
        }
        Ok(Position::Open(Group::Entries, dom))
    }

    // spec_domain DOMAIN
    fn specified_word(&mut self, word: &[u8]) -> Result<Position, Stop>
        ensures { Steps (due.specified_word (composed self.old) word.now) result (composed self.new) }
    {
        let dom = self.domain_named(word)?;
        self.specify(dom)
    }

    // widen_domain DOMAIN
    fn widened_word(&self, word: &[u8]) -> Result<Position, Stop>
        ensures { Steps (due.widened_word (composed self.now) word.now) result (composed self.now) }
    {
        let dom = self.domain_named(word)?;
        Ok(Position::Open(Group::Entries, dom))
    }

    // An entry path of the domain.
    fn entry_word(&mut self, dom: Dom, word: &[u8]) -> Result<Position, Stop>
        ensures { Steps (due.entry_word (composed self.old) dom word.now) result (composed self.new) }
    {
        let path = Path::parse(word)?;
        self.tables.add_entry(Entry { dom, path })?;
        Ok(Position::Within(Group::Entries, dom))
    }

    // LETTERS->TYPE
    fn rights_word(&mut self, dom: Dom, word: &[u8]) -> Result<Position, Stop>
        ensures { Steps (due.rights_word (composed self.old) dom word.now) result (composed self.new) }
    {
        // What is read stands in front, and the fault beside it.
        let Some((letters, name)) = split_arrow(word) else {
            return Err(Reason::Misfit.into());
        };
        let typ = self.type_named(name)?;
        let rights = letters_of(letters).ok_or(Reason::Letters)?;
        self.tables.add_rights(dom, typ, rights)?;
        Ok(Position::Within(Group::Rights, dom))
    }

    // auto->DOMAIN or exec->DOMAIN
    fn passage_word(&mut self, dom: Dom, word: &[u8]) -> Result<Position, Stop>
        ensures { Steps (due.passage_word (composed self.old) dom word.now) result (composed self.new) }
    {
        // What is read stands in front, and the fault beside it.
        let Some((way, name)) = split_arrow(word) else {
            return Err(Reason::Misfit.into());
        };
        let how = passage_of(way).ok_or(Reason::Misfit)?;
        let to = self.domain_named(name)?;
        self.tables.add_passage(dom, how, to)?;
        Ok(Position::Within(Group::Passages, dom))
    }

    // A word of a group of the domain.
    fn member(&mut self, group: Group, dom: Dom, word: &[u8]) -> Result<Position, Stop>
        ensures { Steps (due.member (composed self.old) group dom word.now) result (composed self.new) }
    {
        match group {
            Group::Entries => self.entry_word(dom, word),
            Group::Rights => self.rights_word(dom, word),
            Group::Passages => self.passage_word(dom, word),
            Group::Signals => Err(Reason::Signals.into()),
        }
    }

    // A rule with this flag on this path, before its type is known.
    fn begin_rule(&self, flag: Flag, path: Path) -> Result<Position, Stop>
        ensures { Steps (due.begin_rule (composed self.now) flag path) result (composed self.now) }
    {
        let rule = Rule {
            flag,
            path,
            typ: Typ(0),
        };
        if let Some(refusal) = self.tables.rules().refuses(rule) {
            return Err(refusal.into());
        }
        Ok(Position::RuleType(flag, path))
    }

    // assign FLAG
    fn flag_word(&self, word: &[u8]) -> Result<Position, Stop>
        ensures { Steps (due.flag_word (composed self.now) word.now) result (composed self.now) }
    {
        let flag = flag_of(word).ok_or(Reason::Misfit)?;
        Ok(Position::RulePath(flag))
    }

    // assign FLAG PATH
    fn rule_path(&self, flag: Flag, word: &[u8]) -> Result<Position, Stop>
        ensures { Steps (due.rule_path (composed self.now) flag word.now) result (composed self.now) }
    {
        let path = Path::parse(word)?;
        self.begin_rule(flag, path)
    }

    // assign FLAG PATH TYPE
    fn rule_type(&mut self, flag: Flag, path: Path, word: &[u8]) -> Result<Position, Stop>
        ensures { Steps (due.rule_type (composed self.old) flag path word.now) result (composed self.new) }
    {
        let typ = self.type_named(word)?;
        self.tables.add_rule(Rule { flag, path, typ })?;
        Ok(Position::LineEnd)
    }

    // object PATH
    fn object_word(&mut self, word: &[u8]) -> Result<Position, Stop>
        ensures { Steps (due.object_word (composed self.old) word.now) result (composed self.new) }
    {
        let path = Path::parse(word)?;
        self.tables.add_object(path)?;
        Ok(Position::LineEnd)
    }

    // apart
    fn begin_apart(&self) -> Result<Position, Stop>
        ensures { Steps (due.begin_apart (composed self.now)) result (composed self.now) }
    {
        if self.tables.aparts().len() >= 128 {
            return Err(Reason::Full.into());
        }
        Ok(Position::ApartFrom)
    }

    // apart TYPE
    fn apart_from(&self, word: &[u8]) -> Result<Position, Stop>
        ensures { Steps (due.apart_from (composed self.now) word.now) result (composed self.now) }
    {
        let from = self.type_named(word)?;
        Ok(Position::ApartTo(from))
    }

    // apart TYPE TYPE
    fn apart_to(&mut self, from: Typ, word: &[u8]) -> Result<Position, Stop>
        ensures { Steps (due.apart_to (composed self.old) from word.now) result (composed self.new) }
    {
        let to = self.type_named(word)?;
        self.tables.add_apart(Apart { from, to })?;
        Ok(Position::LineEnd)
    }

    // The first word of a statement.
    fn begin(&self, keyword: Keyword) -> Result<Position, Stop>
        ensures { Steps (due.begin (composed self.now) keyword) result (composed self.now) }
    {
        match keyword {
            Keyword::Types => Ok(Position::Name(Sort::Types)),
            Keyword::Domains => Ok(Position::Name(Sort::Domains)),
            Keyword::DefaultDomain => {
                if self.tables.first().is_some() {
                    return Err(Reason::Repeated.into());
                }
                Ok(Position::DefaultDomain)
            }
            Keyword::DefaultType(flag) => self.begin_rule(flag, Path::root()),
            Keyword::SpecDomain => Ok(Position::Specified),
            Keyword::WidenDomain => Ok(Position::Widened),
            Keyword::Assign => Ok(Position::RuleFlag),
            Keyword::Object => Ok(Position::ObjectPath),
            Keyword::Apart => self.begin_apart(),
        }
    }

    fn first_word(&self, word: &[u8]) -> Result<Position, Stop>
        ensures { Steps (due.first_word (composed self.now) word.now) result (composed self.now) }
    {
        let keyword = keyword_of(word).ok_or(Reason::Misfit)?;
        self.begin(keyword)
    }

    // A word at the position.
    pub(crate) fn on_word(&mut self, position: Position, word: &[u8]) -> Result<Position, Stop>
        ensures { Steps (due.on_word (composed self.old) position word.now) result (composed self.new) }
    {
        match position {
            Position::Start => self.first_word(word),
            Position::Name(sort) | Position::MoreNames(sort) => self.name_word(sort, word),
            Position::DefaultDomain => self.default_word(word),
            Position::Specified => self.specified_word(word),
            Position::Widened => self.widened_word(word),
            Position::Within(group, dom) => self.member(group, dom, word),
            Position::RuleFlag => self.flag_word(word),
            Position::RulePath(flag) => self.rule_path(flag, word),
            Position::RuleType(flag, path) => self.rule_type(flag, path, word),
            Position::ObjectPath => self.object_word(word),
            Position::ApartFrom => self.apart_from(word),
            Position::ApartTo(from) => self.apart_to(from, word),
            Position::Open(_, _) | Position::LineEnd => Err(Reason::Misfit.into()),
        }
    }
}
