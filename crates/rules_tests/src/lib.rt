//! Examples of rules and of the types that they give.
#![tactic(auto)]

#[cfg(test)]
mod tests {
    // Cases are gone through in turn, and the first that fails ends the test.

    use label::numbers::Typ;
    use label::path::Path;
    use label::refusal::Refusal;
    use rules::rule::{Flag, Rule};
    use rules::table::Rules;
    use std::alloc::Global;
    use std::process::Abort;
    use std::test::Fail;

    fn rule(flag: Flag, path: &[u8], typ: u8) -> Result<Rule, Refusal> {
        Ok(Rule {
            flag,
            path: Path::parse(path)?,
            typ: Typ(typ),
        })
    }

    fn table(heap: Global, rules: &[(Flag, &str, u8)]) -> Result<Rules, Refusal> {
        let mut table = Rules::new(heap);
        for (flag, path, typ) in rules {
            table.add(rule(*flag, path.as_bytes(), *typ)?)?;
        }
        Ok(table)
    }

    // Each path has the type of this number.
    fn types(rt: &impl Abort, table: &Rules, expected: &[(&str, u8)]) {
        for (path, typ) in expected {
            assert_eq!(rt;
                table.type_of(path.as_bytes()),
                Some(Typ(*typ)),
                "{}",
                *path
            );
        }
    }

    // -e goes before -r on a path, and both before what its ancestors have.
    #[test]
    fn own_rules_first(rt: HostRuntime) -> Result<(), Fail> {
        let t = table(
            rt.alloc(),
            &[
                (Flag::R, "/", 0),
                (Flag::U, "/", 1),
                (Flag::R, "/log", 2),
                (Flag::E, "/log", 3),
                (Flag::U, "/bin", 4),
                (Flag::E, "/bin/scale", 5),
                (Flag::R, "/bin/print", 6),
            ],
        )?;
        types(
            &rt,
            &t,
            &[
                ("/log", 3),
                ("/log/day", 2),
                ("/bin/scale", 5),
                ("/bin/print", 6),
                ("/bin/print/x", 6),
                ("/bin/scale/x", 4),
                ("/bin/else", 4),
            ],
        );
        Ok(())
    }

    // At an ancestor -u goes before -r, and a -u rule does not speak of its own path.
    #[test]
    fn under_a_path(rt: HostRuntime) -> Result<(), Fail> {
        let heap = rt.alloc();
        let t = table(
            heap,
            &[
                (Flag::R, "/", 0),
                (Flag::R, "/log", 1),
                (Flag::U, "/log", 2),
                (Flag::U, "/bin", 3),
            ],
        )?;
        types(
            &rt,
            &t,
            &[
                ("/", 0),
                ("/log", 1),
                ("/log/day", 2),
                ("/log/day/x", 2),
                ("/bin", 0),
                ("/bin/scale", 3),
            ],
        );
        let t = table(heap, &[(Flag::U, "/", 1), (Flag::R, "/", 0)])?;
        types(&rt, &t, &[("/", 0), ("/a", 1)]);
        let t = table(heap, &[(Flag::U, "/", 1)])?;
        assert_eq!(rt; t.type_of(b"/"), None);
        let t = table(heap, &[(Flag::E, "/", 1), (Flag::E, "/log", 2)])?;
        assert_eq!(rt; t.type_of(b"/log/day"), None);
        Ok(())
    }

    // The longest ancestor decides, in whatever order the rules were added.
    #[test]
    fn longest_ancestor(rt: HostRuntime) -> Result<(), Fail> {
        let heap = rt.alloc();
        let expected = [
            ("/a", 0),
            ("/a/b", 0),
            ("/a/b/c", 2),
            ("/a/b/c/d", 2),
            ("/a/x", 1),
        ];
        let up = [
            (Flag::R, "/", 0),
            (Flag::U, "/a", 1),
            (Flag::E, "/a/b", 0),
            (Flag::R, "/a/b/c", 2),
        ];
        let down = [
            (Flag::R, "/a/b/c", 2),
            (Flag::E, "/a/b", 0),
            (Flag::U, "/a", 1),
            (Flag::R, "/", 0),
        ];
        types(&rt, &table(heap, &up)?, &expected);
        types(&rt, &table(heap, &down)?, &expected);
        let early = [(Flag::U, "/a/b", 2), (Flag::U, "/", 1), (Flag::R, "/a", 0)];
        types(
            &rt,
            &table(heap, &early)?,
            &[("/a/b/c", 2), ("/a/b", 0), ("/b", 1)],
        );
        Ok(())
    }

    // A path that only begins with the same bytes is not under another.
    #[test]
    fn whole_components(rt: HostRuntime) -> Result<(), Fail> {
        let t = table(
            rt.alloc(),
            &[
                (Flag::R, "/", 0),
                (Flag::R, "/lim", 1),
                (Flag::U, "/log", 2),
            ],
        )?;
        types(
            &rt,
            &t,
            &[
                ("/lim", 1),
                ("/lim/x", 1),
                ("/limits", 0),
                ("/limits/x", 0),
                ("/logs/day", 0),
                ("/li", 0),
            ],
        );
        Ok(())
    }

    // 256 rules are taken. After that a rule that is there is refused as repeated, and another as one too many.
    #[test]
    fn limit(rt: HostRuntime) -> Result<(), Fail> {
        let mut t = Rules::new(rt.alloc());
        for a in b'a'..=b'p' {
            for b in b'a'..=b'p' {
                t.add(rule(Flag::R, &[b'/', a, b], a)?)?;
                assert_eq!(rt;
                    t.add(rule(Flag::R, &[b'/', a, b], 0)?),
                    Err(Refusal::Repeated)
                );
            }
        }
        assert_eq!(rt; t.as_slice().len(), 256);
        assert_eq!(rt; t.add(rule(Flag::R, b"/q", 0)?), Err(Refusal::Full));
        assert_eq!(rt; t.add(rule(Flag::U, b"/aa", 0)?), Err(Refusal::Full));
        assert_eq!(rt; t.add(rule(Flag::R, b"/aa", 0)?), Err(Refusal::Repeated));
        assert_eq!(rt; t.as_slice().len(), 256);
        let copy = t.copy(rt.alloc())?;
        assert_eq!(rt; copy.as_slice().len(), 256);
        assert_eq!(rt; copy.type_of(b"/pp/x"), Some(Typ(b'p')));
        assert_eq!(rt; copy.find(Flag::U, b"/aa").is_some(), false);
        assert_eq!(rt; copy.find(Flag::R, b"/aa").is_some(), true);
        Ok(())
    }
}
