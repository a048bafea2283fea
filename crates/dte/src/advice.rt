// What is wrong with a module, what was expected, and what to do, in words.
use reader::reason::Reason;
use words::keyword::Keyword;

#[derive(Clone, Copy)]
pub(crate) struct Advice {
    pub(crate) complaint: &'static str,
    pub(crate) expected: &'static str,
    pub(crate) help: &'static str,
}

pub(crate) fn advice_on(reason: Reason) -> Advice {
    match reason {
        Reason::Stray => Advice {
            complaint: "this byte may not stand outside a comment",
            expected: "printable ASCII, spaces, tabs and line feeds; a backslash only at a line's end",
            help: "take the byte out, or put it behind a #",
        },
        Reason::Misfit => Advice {
            complaint: "this does not fit here",
            expected: "a statement, each on a line of its own",
            help: "complete the statement, or begin a new line",
        },
        Reason::Misshapen => Advice {
            complaint: "this is not a name, or not a path",
            expected: "a name of 1 to 24 of a to z, 0 to 9 and _, a letter first; a path of at most 64 bytes that begins with /",
            help: "spell it otherwise",
        },
        Reason::Repeated => Advice {
            complaint: "this was given before",
            expected: "each name, object, rule, entry path, default and spec_domain once",
            help: "take it out; widen_domain adds to a domain that has its spec_domain",
        },
        Reason::Undeclared => Advice {
            complaint: "this name is not declared",
            expected: "a type or a domain that is declared before this place",
            help: "declare it by types NAME.. or domains NAME..",
        },
        Reason::Full => Advice {
            complaint: "a table has as many entries as it may have",
            expected: "at most 64 types, 32 domains, 256 rules, 128 objects, 128 separations, and 8 entry paths for a domain",
            help: "take out what is not needed",
        },
        Reason::Letters => Advice {
            complaint: "these are not letters of rights",
            expected: "one or more of r w a x c d, none of them twice",
            help: "write them as in rw->TYPE",
        },
        Reason::Signals => Advice {
            complaint: "the group of signals has to be empty",
            expected: "() as the last group",
            help: "take the word out",
        },
        Reason::Clash(_) => Advice {
            complaint: "two domains share an entry path, and one domain passes to both by auto",
            expected: "one auto passage at most for an entry path",
            help: "make one of the passages exec, or take the path from one of the domains",
        },
        Reason::Incomplete => Advice {
            complaint: "there is no default domain, or no -r rule on /",
            expected: "default_d DOMAIN and default_rt TYPE by the end of the first module",
            help: "add what is missing",
        },
        Reason::Chain(_) => Advice {
            complaint: "a chain leads between two types that are to be kept apart",
            expected: "no chain of permitted calls from the one to the other",
            help: "take out a right or a passage that makes a link, or the apart",
        },
        Reason::TooMuch => Advice {
            complaint: "this module is too much",
            expected: "at most 8 modules, of at most 16384 bytes each",
            help: "join modules, or shorten this one",
        },
    }
}

// The form of a statement.
pub(crate) fn form(keyword: Keyword) -> &'static str {
    match keyword {
        Keyword::Types => "types NAME..",
        Keyword::Domains => "domains NAME..",
        Keyword::DefaultDomain => "default_d DOMAIN",
        Keyword::DefaultType(_) => "default_et|default_ut|default_rt TYPE",
        Keyword::SpecDomain => {
            "spec_domain DOMAIN (PATH..) (LETTERS->TYPE..) (auto->DOMAIN exec->DOMAIN..) ()"
        }
        Keyword::WidenDomain => {
            "widen_domain DOMAIN (PATH..) (LETTERS->TYPE..) (auto->DOMAIN exec->DOMAIN..) ()"
        }
        Keyword::Assign => "assign -e|-u|-r PATH TYPE",
        Keyword::Object => "object PATH",
        Keyword::Apart => "apart TYPE TYPE",
    }
}
