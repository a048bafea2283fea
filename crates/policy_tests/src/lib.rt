//! Examples of tables, and of what a policy decides.
#![tactic(auto)]

#[cfg(test)]
mod tests {
    // Cases are gone through in turn, and the first that fails ends the test.

    use label::name::Name;
    use label::numbers::{Dom, Obj, Typ};
    use label::path::Path;
    use label::refusal::Refusal;
    use label::rights::Rights;
    use policy::complete::Policy;
    use policy::sealed::Sealed;
    use rules::rule::{Flag, Rule};
    use std::alloc::Global;
    use std::test::Fail;
    use tables::entry::Entry;
    use tables::holding::Passage;
    use tables::table::{Apart, Tables};

    const ANY: Typ = Typ(0);

    const BIN: Typ = Typ(1);

    const LIM: Typ = Typ(2);

    const LOG: Typ = Typ(3);

    const BOOT: Dom = Dom(0);

    const SCALE: Dom = Dom(1);

    const PRINT: Dom = Dom(2);

    fn declare(t: &mut Tables, types: &[&str], domains: &[&str]) -> Result<(), Refusal> {
        for name in types {
            t.declare_type(Name::parse(name.as_bytes())?)?;
        }
        for name in domains {
            t.declare_domain(Name::parse(name.as_bytes())?)?;
        }
        Ok(())
    }

    fn assign(t: &mut Tables, rules: &[(Flag, &str, Typ)]) -> Result<(), Refusal> {
        for (flag, path, typ) in rules {
            t.add_rule(Rule {
                flag: *flag,
                path: Path::parse(path.as_bytes())?,
                typ: *typ,
            })?;
        }
        Ok(())
    }

    fn enter(t: &mut Tables, dom: Dom, path: &str) -> Result<(), Refusal> {
        t.add_entry(Entry {
            dom,
            path: Path::parse(path.as_bytes())?,
        })
    }

    fn hold(t: &mut Tables, dom: Dom, rights: &[(char, Typ)]) -> Result<(), Refusal> {
        for (letter, typ) in rights {
            if let Some(right) = Rights::of(*letter) {
                t.add_rights(dom, *typ, right)?;
            }
        }
        Ok(())
    }

    fn place(t: &mut Tables, paths: &[&str]) -> Result<(), Refusal> {
        for path in paths {
            t.add_object(Path::parse(path.as_bytes())?)?;
        }
        Ok(())
    }

    // The names and rules of a small grader: its programs, its limits and its log.
    fn named(heap: Global) -> Result<Tables, Refusal> {
        let mut t = Tables::new(heap);
        declare(
            &mut t,
            &["t_any", "t_bin", "t_lim", "t_log"],
            &["d_boot", "d_scale", "d_print"],
        )?;
        t.set_default(BOOT)?;
        assign(
            &mut t,
            &[
                (Flag::R, "/", ANY),
                (Flag::R, "/bin", BIN),
                (Flag::E, "/lim", LIM),
                (Flag::U, "/log", LOG),
            ],
        )?;
        place(
            &mut t,
            &["/bin/scale", "/bin/print", "/lim", "/log/day", "/label"],
        )?;
        Ok(t)
    }

    fn grader(heap: Global) -> Result<Sealed, Refusal> {
        let mut t = named(heap)?;
        enter(&mut t, BOOT, "/boot")?;
        enter(&mut t, SCALE, "/bin/scale")?;
        enter(&mut t, PRINT, "/bin/print")?;
        hold(
            &mut t,
            BOOT,
            &[('d', ANY), ('r', BIN), ('x', BIN), ('d', BIN)],
        )?;
        hold(
            &mut t,
            SCALE,
            &[('d', ANY), ('r', LIM), ('w', LOG), ('a', LOG)],
        )?;
        hold(&mut t, PRINT, &[('d', ANY), ('r', LOG), ('c', ANY)])?;
        t.add_passage(BOOT, Passage::Auto, SCALE)?;
        t.add_passage(BOOT, Passage::Exec, PRINT)?;
        Policy::of(t)
            .map(Policy::seal)
            .map_err(|(_, refusal)| refusal)
    }

    #[test]
    fn types_of_paths_and_objects(rt: HostRuntime) -> Result<(), Fail> {
        let sealed = grader(rt.alloc())?;
        for (path, typ) in [
            ("/log", ANY),
            ("/log/day", LOG),
            ("/limits", ANY),
            ("/lim", LIM),
            ("/bin", BIN),
        ] {
            let path = Path::parse(path.as_bytes())?;
            assert_eq!(rt; sealed.policy().type_of(&path), typ);
        }
        for (obj, typ) in [(0, BIN), (1, BIN), (2, LIM), (3, LOG), (4, ANY)] {
            assert_eq!(rt; sealed.type_of(Obj(obj)), Ok(typ));
        }
        assert_eq!(rt; sealed.type_of(Obj(5)), Err(Refusal::NoObject));
        assert_eq!(rt; sealed.policy().first(), BOOT);
        Ok(())
    }

    #[test]
    fn grants_and_denials(rt: HostRuntime) -> Result<(), Fail> {
        let sealed = grader(rt.alloc())?;
        for (dom, obj, letter, answer) in [
            (BOOT, 0, 'x', Ok(())),
            (BOOT, 0, 'w', Err(Refusal::Denied((10, 'w')))),
            (SCALE, 0, 'x', Err(Refusal::Denied((4, 'd')))),
            (SCALE, 3, 'a', Ok(())),
            (PRINT, 4, 'c', Ok(())),
            (PRINT, 4, 'q', Err(Refusal::Denied((6, 'q')))),
            (BOOT, 5, 'x', Err(Refusal::NoObject)),
            (Dom(3), 4, 'c', Err(Refusal::NoDomain)),
            (Dom(255), 255, 'c', Err(Refusal::NoObject)),
        ] {
            assert_eq!(rt; sealed.decide(dom, Obj(obj), letter), answer);
        }
        for (dom, obj, answer) in [
            (BOOT, 1, Ok(())),
            (SCALE, 2, Ok(())),
            (PRINT, 2, Err(Refusal::Denied((4, 'r')))),
            (SCALE, 1, Err(Refusal::Denied((4, 'd')))),
            (PRINT, 5, Err(Refusal::NoObject)),
            (Dom(3), 2, Err(Refusal::NoDomain)),
        ] {
            assert_eq!(rt; sealed.decide_read(dom, Obj(obj)), answer);
        }
        Ok(())
    }

    #[test]
    fn passages(rt: HostRuntime) -> Result<(), Fail> {
        let sealed = grader(rt.alloc())?;
        for (dom, obj, target) in [
            (BOOT, 0, Some(SCALE)),
            (BOOT, 1, None),
            (SCALE, 0, None),
            (BOOT, 5, None),
            (Dom(3), 0, None),
        ] {
            assert_eq!(rt; sealed.auto(dom, Obj(obj)), target);
        }
        for (dom, obj, to, may) in [
            (BOOT, 0, SCALE, true),
            (BOOT, 1, PRINT, true),
            (BOOT, 0, PRINT, false),
            (BOOT, 1, SCALE, false),
            (BOOT, 2, PRINT, false),
            (SCALE, 1, PRINT, false),
            (BOOT, 5, SCALE, false),
            (BOOT, 0, Dom(3), false),
        ] {
            assert_eq!(rt; sealed.passes(dom, Obj(obj), to), may);
        }
        Ok(())
    }

    // A name of three letters, another for each number below 128.
    fn nth_name(n: u8) -> Result<Name, Refusal> {
        Name::parse(&[b'n', b'a' + n / 16, b'a' + n % 16])
    }

    #[test]
    fn limits(rt: HostRuntime) -> Result<(), Fail> {
        let mut t = Tables::new(rt.alloc());
        for n in 0..64u8 {
            t.declare_type(nth_name(n)?)?;
        }
        assert_eq!(rt; t.declare_type(nth_name(64)?), Err(Refusal::Full));
        assert_eq!(rt; t.declare_type(nth_name(63)?), Err(Refusal::Repeated));
        for n in 0..32u8 {
            t.declare_domain(nth_name(n)?)?;
        }
        assert_eq!(rt; t.declare_domain(nth_name(32)?), Err(Refusal::Full));
        for n in 0..128u8 {
            t.add_apart(Apart {
                from: Typ(n / 2),
                to: Typ(63),
            })?;
        }
        let apart = Apart {
            from: Typ(64),
            to: Typ(0),
        };
        assert_eq!(rt; t.add_apart(apart), Err(Refusal::Full));
        assert_eq!(rt; t.types().len(), 64);
        assert_eq!(rt; t.domains().len(), 32);
        assert_eq!(rt; t.aparts().len(), 128);
        assert_eq!(rt; t.domain_named(b"nbp"), Some(Dom(31)));
        assert_eq!(rt; t.type_named(b"ndp"), Some(Typ(63)));
        assert_eq!(rt; t.type_named(b"nea"), None);
        Ok(())
    }

    #[test]
    fn entry_paths(rt: HostRuntime) -> Result<(), Fail> {
        let mut t = named(rt.alloc())?;
        for path in ["/a", "/b", "/c", "/d", "/e", "/f", "/g", "/h"] {
            enter(&mut t, BOOT, path)?;
        }
        assert_eq!(rt; enter(&mut t, BOOT, "/i"), Err(Refusal::Full));
        assert_eq!(rt; enter(&mut t, BOOT, "/h"), Err(Refusal::Repeated));
        assert_eq!(rt; enter(&mut t, SCALE, "/h"), Ok(()));
        assert_eq!(rt; enter(&mut t, Dom(3), "/h"), Err(Refusal::Undeclared));
        assert!(rt; t.entries().enters(SCALE, b"/h"));
        assert!(rt; !t.entries().enters(BOOT, b"/i"));
        assert!(rt; !t.entries().enters(PRINT, b"/h"));
        Ok(())
    }

    // What is refused leaves the tables as they were.
    #[test]
    fn refusals(rt: HostRuntime) -> Result<(), Fail> {
        let mut t = named(rt.alloc())?;
        assert_eq!(rt; t.set_default(SCALE), Err(Refusal::Repeated));
        assert_eq!(rt; t.first(), Some(BOOT));
        assert_eq!(rt; declare(&mut t, &["t_log"], &[]), Err(Refusal::Repeated));
        assert_eq!(rt;
            declare(&mut t, &[], &["t_log", "t_log"]),
            Err(Refusal::Repeated)
        );
        assert_eq!(rt;
            assign(&mut t, &[(Flag::U, "/log", ANY)]),
            Err(Refusal::Repeated)
        );
        assert_eq!(rt;
            assign(&mut t, &[(Flag::E, "/log", Typ(4))]),
            Err(Refusal::Undeclared)
        );
        assert_eq!(rt; place(&mut t, &["/lim"]), Err(Refusal::Repeated));
        assert_eq!(rt;
            hold(&mut t, Dom(4), &[('r', ANY)]),
            Err(Refusal::Undeclared)
        );
        assert_eq!(rt;
            hold(&mut t, BOOT, &[('r', Typ(4))]),
            Err(Refusal::Undeclared)
        );
        assert_eq!(rt;
            t.add_passage(BOOT, Passage::Exec, Dom(4)),
            Err(Refusal::Undeclared)
        );
        assert!(rt; !t.lists(BOOT, Passage::Exec, Dom(4)));
        assert_eq!(rt; t.types().len(), 4);
        assert_eq!(rt; t.domains().len(), 4);
        assert_eq!(rt; t.rules().as_slice().len(), 4);
        assert_eq!(rt; t.objects().len(), 5);
        assert_eq!(rt; t.object_at(b"/label"), Some(Obj(4)));
        Ok(())
    }

    // Tables without a default domain, or without an -r rule on `/`, come back as they were.
    #[test]
    fn incomplete_tables(rt: HostRuntime) -> Result<(), Fail> {
        let mut t = Tables::new(rt.alloc());
        declare(&mut t, &["t_any"], &["d_boot"])?;
        t.set_default(BOOT)?;
        assign(
            &mut t,
            &[
                (Flag::E, "/", ANY),
                (Flag::U, "/", ANY),
                (Flag::R, "/bin", ANY),
            ],
        )?;
        let Err((t, refusal)) = Policy::of(t) else {
            return Err(Fail::new("no rule on the root was asked for"));
        };
        assert_eq!(rt; refusal, Refusal::Incomplete);
        assert_eq!(rt; t.rules().as_slice().len(), 3);
        let mut u = Tables::new(rt.alloc());
        declare(&mut u, &["t_any"], &["d_boot"])?;
        assign(&mut u, &[(Flag::R, "/", ANY)])?;
        let Err((u, refusal)) = Policy::of(u) else {
            return Err(Fail::new("no default domain was asked for"));
        };
        assert_eq!(rt; refusal, Refusal::Incomplete);
        assert_eq!(rt; u.first(), None);
        Ok(())
    }
}
