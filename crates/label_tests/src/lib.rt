//! Examples of names, paths, letters and refusals.
#![tactic(auto)]

#[cfg(test)]
mod tests {
    // Cases are gone through in turn, and the first that fails ends the test.

    use label::name::Name;
    use label::names::is_name;
    use label::path::Path;
    use label::paths::{is_ancestor, is_path};
    use label::refusal::Refusal;
    use label::rights::{LETTERS, Rights};
    use std::test::Fail;

    #[test]
    fn names(rt: HostRuntime) -> Result<(), Fail> {
        for good in ["a", "z", "t_any", "x9", "a__", "abcdefghijklmnopqrstuvwx"] {
            assert!(rt; is_name(good.as_bytes()), "{}", good);
            assert_eq!(rt; Name::parse(good.as_bytes())?.as_bytes(), good.as_bytes());
        }
        for bad in [
            "",
            "abcdefghijklmnopqrstuvwxy",
            "9x",
            "_x",
            "Tany",
            "tAny",
            "t-any",
            "t any",
            "t/any",
            "é",
        ] {
            assert!(rt; !is_name(bad.as_bytes()), "{}", bad);
            assert_eq!(rt;
                Name::parse(bad.as_bytes()),
                Err(Refusal::Misshapen),
                "{}",
                bad
            );
        }
        Ok(())
    }

    #[test]
    fn paths(rt: HostRuntime) -> Result<(), Fail> {
        for good in [
            "/",
            "/a",
            "/...",
            "/.a",
            "/a.b",
            "/a/b/c",
            "/bin/scale",
            "/!~",
            "/0123456789/0123456789/0123456789/0123456789/0123456789/01234567",
        ] {
            assert!(rt; is_path(good.as_bytes()), "{}", good);
            assert_eq!(rt; Path::parse(good.as_bytes())?.as_bytes(), good.as_bytes());
        }
        for bad in [
            "",
            "a",
            "a/b",
            "//",
            "/a/",
            "//a",
            "/a//b",
            "/.",
            "/..",
            "/a/.",
            "/a/../b",
            "/a b",
            "/a\tb",
            "/a\x7f",
            "/(",
            "/)",
            "/#",
            "/\\",
            "/é",
            "/0123456789/0123456789/0123456789/0123456789/0123456789/012345678",
        ] {
            assert!(rt; !is_path(bad.as_bytes()), "{}", bad);
            assert_eq!(rt;
                Path::parse(bad.as_bytes()),
                Err(Refusal::Misshapen),
                "{}",
                bad
            );
        }
        assert_eq!(rt; Path::root(), Path::parse(b"/")?);
        Ok(())
    }

    #[test]
    fn ancestors(rt: HostRuntime) {
        for n in 0..12 {
            assert_eq!(rt; is_ancestor(b"/log/day", n), n == 1 || n == 4);
            assert!(rt; !is_ancestor(b"/", n));
            assert_eq!(rt; is_ancestor(b"/log", n), n == 1);
        }
    }

    #[test]
    fn letters(rt: HostRuntime) -> Result<(), Fail> {
        for letter in LETTERS {
            let one = Rights::of(letter).ok_or("a letter is refused")?;
            for other in LETTERS {
                assert_eq!(rt; one.has(other), letter == other);
                let both = one.union(Rights::of(other).ok_or("a letter is refused")?);
                assert!(rt; both.has(letter) && both.has(other));
            }
            assert!(rt; !Rights::none().has(letter));
            assert!(rt; !one.has('l'));
        }
        for other in ['l', 'R', ' ', '-'] {
            assert_eq!(rt; Rights::of(other), None);
        }
        Ok(())
    }

    #[test]
    fn texts(rt: HostRuntime) -> Result<(), Fail> {
        let heap = rt.alloc();
        let name = Name::parse(b"t_log")?;
        let path = Path::parse(b"/log/day")?;
        assert_eq!(rt;
            format!(in heap; "{name} {path} {name:>7}|")?.as_str(),
            "t_log /log/day   t_log|"
        );
        let root = Path::root();
        assert_eq!(rt;
            format!(in heap; "{name:?} {path:?} {root:?}")?.as_str(),
            "t_log /log/day /"
        );
        let read = Rights::of('r').ok_or("r is refused")?;
        let descend = Rights::of('d').ok_or("d is refused")?;
        let both = descend.union(read);
        let none = Rights::none();
        assert_eq!(rt;
            format!(in heap; "{both} {descend} {none}")?.as_str(),
            "rd d -"
        );
        let denied = Refusal::Denied((4, 'd'));
        assert_eq!(rt;
            format!(in heap; "{denied}")?.as_str(),
            "denied: d lacking on the first 4 bytes of the path"
        );
        Ok(())
    }

    #[test]
    fn numbers(rt: HostRuntime) {
        let denied = Refusal::Denied((4, 'r'));
        for (refusal, number) in [
            (Refusal::Misshapen, 3),
            (Refusal::Repeated, 4),
            (Refusal::Undeclared, 5),
            (Refusal::Full, 6),
            (Refusal::Incomplete, 10),
            (Refusal::NoObject, 22),
            (Refusal::NoDomain, 24),
            (Refusal::SmallBuffer, 26),
            (Refusal::NoType, 27),
            (denied, 30),
            (Refusal::NoPassage, 31),
        ] {
            assert_eq!(rt; refusal.number(), Some(number));
        }
        assert_eq!(rt; Refusal::Memory.number(), None);
    }
}
