//! Examples of flow: chains in policies that are opened from their texts.
#![tactic(auto)]

#[cfg(test)]
mod tests {
    // Cases are gone through in turn, and the first that fails ends the test.

    use draft::draft::Draft;
    use draft::fault::Failure;
    use draft::sealed_policy::SealedPolicy;
    use flow::objects::Objects;
    use label::numbers::Obj;
    use label::refusal::Refusal;
    use std::alloc::Global;
    use std::fmt::Write;
    use std::process::Abort;
    use std::test::Fail;

    // What a buffer holds before a search.
    const STALE: u8 = 0xEE;

    // A policy by its domains, and the shortest chain between two of its types by the nodes; without a node if there is none.
    #[derive(Clone, Copy)]
    struct Case {
        why: &'static str,
        domains: &'static [&'static str],
        from: &'static str,
        to: &'static str,
        nodes: &'static [u8],
    }

    fn fail(failure: Failure) -> Fail {
        match failure {
            Failure::Memory => Fail::new("want of memory"),
            Failure::Faulty(fault) => Fail::new(format_args!(
                "the text is refused by {} in line {}",
                fault.reason.number(),
                fault.line
            )),
        }
    }

    fn open(heap: Global, text: &[u8]) -> Result<SealedPolicy, Fail> {
        let (mut draft, blank) = Draft::new();
        match draft.open(heap, blank, text) {
            Ok(rest) => Ok(draft.seal(rest)),
            Err((blank, failure)) => {
                blank.give_up();
                Err(fail(failure))
            }
        }
    }

    // The objects of the types that are named.
    fn objects(policy: &SealedPolicy, names: &[&str]) -> Result<Objects, Fail> {
        let decisions = policy.decisions();
        let mut all = Objects::none();
        for name in names {
            let typ = decisions
                .policy()
                .tables()
                .type_named(name.as_bytes())
                .ok_or("no such type")?;
            let some = Objects::of_type(decisions, typ);
            for o in 0..=255u8 {
                if some.has(Obj(o)) {
                    all.add(Obj(o));
                }
            }
        }
        Ok(all)
    }

    // Whether the buffer begins with the bytes, and is as it was behind them.
    fn holds(buffer: &[u8], front: &[u8]) -> bool {
        buffer.iter().enumerate().all(|(at, byte)| *byte == front.get(at).copied().unwrap_or(STALE))
    }

    // Checks the shortest chain between the sets by its nodes: none if no chain leads there.
    fn check_found(
        rt: &impl Abort,
        policy: &SealedPolicy,
        from: &Objects,
        to: &Objects,
        nodes: &[u8],
        why: &str,
    ) {
        let mut buffer = [STALE; 170];
        let links = nodes.len().checked_sub(1);
        assert_eq!(rt;
            policy.chart().search(from, to, &mut buffer),
            Ok(links),
            "{why}"
        );
        assert!(rt; holds(&buffer, nodes), "{why}");
    }

    // The same between the objects of types.
    fn check_chain(
        rt: &impl Abort,
        policy: &SealedPolicy,
        from: &[&str],
        to: &[&str],
        nodes: &[u8],
        why: &str,
    ) -> Result<(), Fail> {
        check_found(
            rt,
            policy,
            &objects(policy, from)?,
            &objects(policy, to)?,
            nodes,
            why,
        );
        Ok(())
    }

    // Checks how many links there are, where several chains are shortest.
    fn check_links(
        rt: &impl Abort,
        policy: &SealedPolicy,
        from: &[&str],
        to: &[&str],
        links: Option<usize>,
    ) -> Result<(), Fail> {
        let from = objects(policy, from)?;
        let to = objects(policy, to)?;
        assert_eq!(rt; policy.chart().spread(&from).links_to(&to), links);
        Ok(())
    }

    // Everything but the domains: /in is the object 0, the two of t_mid are 1 and 2, /out is 3, and the programs are 4 to 6.
    const OBJECTS: &str = "types t_any t_bin t_in t_left t_right t_mid t_out
domains d_boot d_a d_b d_c
default_d d_boot
default_rt t_any
assign -r /bin t_bin
assign -e /in t_in
assign -e /left t_left
assign -e /right t_right
assign -u /left t_mid
assign -u /right t_mid
assign -e /out t_out
object /in
object /left/m
object /right/m
object /out
object /bin/a
object /bin/b
object /bin/c
";

    fn write_policy(heap: Global, domains: &[&str]) -> Result<String, Fail> {
        let mut text = String::new(heap);
        text.push_str(OBJECTS)?;
        for domain in domains {
            writeln!(text, "spec_domain {domain}")?;
        }
        Ok(text)
    }

    fn check_case(rt: &impl Abort, heap: Global, case: Case) -> Result<(), Fail> {
        let text = write_policy(heap, case.domains)?;
        let policy = open(heap, text.as_bytes())?;
        check_chain(rt, &policy, &[case.from], &[case.to], case.nodes, case.why)
    }

    fn check_cases(rt: &impl Abort, heap: Global, cases: &[Case]) -> Result<(), Fail> {
        for case in cases {
            check_case(rt, heap, *case)?;
        }
        Ok(())
    }

    // The letters of a domain that needs no passage, and types that have an object and that have none.
    const LETTERS: [Case; 10] = [
        Case {
            why: "r reads and w writes",
            domains: &["d_boot () (d->t_any r->t_in w->t_out) () ()"],
            from: "t_in",
            to: "t_out",
            nodes: &[0, 128, 3],
        },
        Case {
            why: "x reads",
            domains: &["d_boot () (d->t_any x->t_in w->t_out) () ()"],
            from: "t_in",
            to: "t_out",
            nodes: &[0, 128, 3],
        },
        Case {
            why: "a writes",
            domains: &["d_boot () (d->t_any r->t_in a->t_out) () ()"],
            from: "t_in",
            to: "t_out",
            nodes: &[0, 128, 3],
        },
        Case {
            why: "c writes",
            domains: &["d_boot () (d->t_any r->t_in c->t_out) () ()"],
            from: "t_in",
            to: "t_out",
            nodes: &[0, 128, 3],
        },
        Case {
            why: "w, a, c and d do not read",
            domains: &["d_boot () (d->t_any wacd->t_in w->t_out) () ()"],
            from: "t_in",
            to: "t_out",
            nodes: &[],
        },
        Case {
            why: "r, x and d do not write",
            domains: &["d_boot () (d->t_any r->t_in rxd->t_out) () ()"],
            from: "t_in",
            to: "t_out",
            nodes: &[],
        },
        Case {
            why: "an ancestor is out of reach",
            domains: &["d_boot () (r->t_in w->t_out) () ()"],
            from: "t_in",
            to: "t_out",
            nodes: &[],
        },
        Case {
            why: "a type with an object, to itself",
            domains: &[],
            from: "t_in",
            to: "t_in",
            nodes: &[0],
        },
        Case {
            why: "a type without an object, to itself",
            domains: &[],
            from: "t_left",
            to: "t_left",
            nodes: &[],
        },
        Case {
            why: "from a type without an object",
            domains: &["d_boot () (d->t_any rw->t_in rw->t_left) () ()"],
            from: "t_left",
            to: "t_in",
            nodes: &[],
        },
    ];

    // A passage needs x on the object, the object's path among the entry paths, and that it is listed.
    const PASSAGES: [Case; 9] = [
        Case {
            why: "x, the entry path and an exec passage",
            domains: &[
                "d_boot () (d->t_any r->t_in dx->t_bin) (exec->d_a) ()",
                "d_a (/bin/a) (d->t_any w->t_out) () ()",
            ],
            from: "t_in",
            to: "t_out",
            nodes: &[0, 128, 129, 3],
        },
        Case {
            why: "x, the entry path and an auto passage",
            domains: &[
                "d_boot () (d->t_any r->t_in dx->t_bin) (auto->d_a) ()",
                "d_a (/bin/a) (d->t_any w->t_out) () ()",
            ],
            from: "t_in",
            to: "t_out",
            nodes: &[0, 128, 129, 3],
        },
        Case {
            why: "without x",
            domains: &[
                "d_boot () (d->t_any r->t_in dr->t_bin) (exec->d_a) ()",
                "d_a (/bin/a) (d->t_any w->t_out) () ()",
            ],
            from: "t_in",
            to: "t_out",
            nodes: &[],
        },
        Case {
            why: "x on a program out of reach",
            domains: &[
                "d_boot () (d->t_any r->t_in x->t_bin) (exec->d_a) ()",
                "d_a (/bin/a) (d->t_any w->t_out) () ()",
            ],
            from: "t_in",
            to: "t_out",
            nodes: &[],
        },
        Case {
            why: "without an entry path",
            domains: &[
                "d_boot () (d->t_any r->t_in dx->t_bin) (exec->d_a) ()",
                "d_a () (d->t_any w->t_out) () ()",
            ],
            from: "t_in",
            to: "t_out",
            nodes: &[],
        },
        Case {
            why: "an entry path at which no object is",
            domains: &[
                "d_boot () (d->t_any r->t_in dx->t_bin) (exec->d_a) ()",
                "d_a (/bin/z) (d->t_any w->t_out) () ()",
            ],
            from: "t_in",
            to: "t_out",
            nodes: &[],
        },
        Case {
            why: "an entry path on which x is lacking",
            domains: &[
                "d_boot () (d->t_any r->t_in dx->t_bin) (exec->d_a) ()",
                "d_a (/out) (d->t_any w->t_out) () ()",
            ],
            from: "t_in",
            to: "t_out",
            nodes: &[],
        },
        Case {
            why: "without a passage",
            domains: &[
                "d_boot () (d->t_any r->t_in dx->t_bin) () ()",
                "d_a (/bin/a) (d->t_any w->t_out) () ()",
            ],
            from: "t_in",
            to: "t_out",
            nodes: &[],
        },
        Case {
            why: "a passage the other way",
            domains: &[
                "d_boot () (d->t_any r->t_in dx->t_bin) () ()",
                "d_a (/bin/a) (d->t_any w->t_out) (exec->d_boot) ()",
            ],
            from: "t_in",
            to: "t_out",
            nodes: &[],
        },
    ];

    // Only domains that a program can come to have links.
    const LIVE: [Case; 5] = [
        Case {
            why: "a domain that nobody can enter",
            domains: &[
                "d_boot () (d->t_any dx->t_bin) () ()",
                "d_a (/bin/a) (d->t_any r->t_in w->t_out) () ()",
            ],
            from: "t_in",
            to: "t_out",
            nodes: &[],
        },
        Case {
            why: "the same, entered",
            domains: &[
                "d_boot () (d->t_any dx->t_bin) (exec->d_a) ()",
                "d_a (/bin/a) (d->t_any r->t_in w->t_out) () ()",
            ],
            from: "t_in",
            to: "t_out",
            nodes: &[0, 129, 3],
        },
        Case {
            why: "two that only each other can enter",
            domains: &[
                "d_boot () (d->t_any dx->t_bin) () ()",
                "d_a (/bin/a) (d->t_any r->t_in dx->t_bin) (exec->d_b) ()",
                "d_b (/bin/b) (d->t_any w->t_out dx->t_bin) (exec->d_a) ()",
            ],
            from: "t_in",
            to: "t_out",
            nodes: &[],
        },
        Case {
            why: "a domain that nobody can enter, on its way to one that is entered",
            domains: &[
                "d_boot () (d->t_any dx->t_bin) (exec->d_b) ()",
                "d_a (/bin/a) (d->t_any r->t_in dx->t_bin) (exec->d_b) ()",
                "d_b (/bin/b) (d->t_any w->t_out) () ()",
            ],
            from: "t_in",
            to: "t_out",
            nodes: &[],
        },
        Case {
            why: "one that is entered by way of another",
            domains: &[
                "d_boot () (d->t_any dx->t_bin) (exec->d_b) ()",
                "d_a (/bin/a) (d->t_any r->t_in w->t_out) () ()",
                "d_b (/bin/b) (d->t_any dx->t_bin) (exec->d_a) ()",
            ],
            from: "t_in",
            to: "t_out",
            nodes: &[0, 129, 3],
        },
    ];

    // Flow goes from object to object: that two have one type leads nowhere.
    const BY_OBJECT: [Case; 4] = [
        Case {
            why: "a type is written",
            domains: &[
                "d_boot () (d->t_any dx->t_bin) (exec->d_a exec->d_b exec->d_c) ()",
                "d_a (/bin/a) (d->t_any r->t_in d->t_left w->t_mid) () ()",
                "d_b (/bin/b) (d->t_any d->t_right r->t_mid w->t_out) () ()",
            ],
            from: "t_in",
            to: "t_mid",
            nodes: &[0, 129, 1],
        },
        Case {
            why: "the type is read",
            domains: &[
                "d_boot () (d->t_any dx->t_bin) (exec->d_a exec->d_b exec->d_c) ()",
                "d_a (/bin/a) (d->t_any r->t_in d->t_left w->t_mid) () ()",
                "d_b (/bin/b) (d->t_any d->t_right r->t_mid w->t_out) () ()",
            ],
            from: "t_mid",
            to: "t_out",
            nodes: &[2, 130, 3],
        },
        Case {
            why: "but what is written is not what is read",
            domains: &[
                "d_boot () (d->t_any dx->t_bin) (exec->d_a exec->d_b exec->d_c) ()",
                "d_a (/bin/a) (d->t_any r->t_in d->t_left w->t_mid) () ()",
                "d_b (/bin/b) (d->t_any d->t_right r->t_mid w->t_out) () ()",
            ],
            from: "t_in",
            to: "t_out",
            nodes: &[],
        },
        Case {
            why: "what is written is what is read",
            domains: &[
                "d_boot () (d->t_any dx->t_bin) (exec->d_a exec->d_b exec->d_c) ()",
                "d_a (/bin/a) (d->t_any r->t_in d->t_left w->t_mid) () ()",
                "d_b (/bin/b) (d->t_any d->t_left r->t_mid w->t_out) () ()",
            ],
            from: "t_in",
            to: "t_out",
            nodes: &[0, 129, 1, 130, 3],
        },
    ];

    // Chains over several domains.
    const LONG: [Case; 4] = [
        Case {
            why: "three domains with an object between each two",
            domains: &[
                "d_boot () (d->t_any dx->t_bin) (exec->d_a exec->d_b exec->d_c) ()",
                "d_a (/bin/a) (d->t_any r->t_in d->t_left w->t_mid) () ()",
                "d_b (/bin/b) (d->t_any d->t_left d->t_right rw->t_mid) () ()",
                "d_c (/bin/c) (d->t_any d->t_right r->t_mid w->t_out) () ()",
            ],
            from: "t_in",
            to: "t_out",
            nodes: &[0, 129, 1, 130, 2, 131, 3],
        },
        Case {
            why: "four domains with no object between",
            domains: &[
                "d_boot () (d->t_any r->t_in dx->t_bin) (exec->d_a) ()",
                "d_a (/bin/a) (d->t_any dx->t_bin) (exec->d_b) ()",
                "d_b (/bin/b) (d->t_any dx->t_bin) (auto->d_c) ()",
                "d_c (/bin/c) (d->t_any w->t_out) () ()",
            ],
            from: "t_in",
            to: "t_out",
            nodes: &[0, 128, 129, 130, 131, 3],
        },
        Case {
            why: "the same with a shorter way beside it",
            domains: &[
                "d_boot () (d->t_any r->t_in dx->t_bin) (exec->d_a exec->d_c) ()",
                "d_a (/bin/a) (d->t_any dx->t_bin) (exec->d_b) ()",
                "d_b (/bin/b) (d->t_any dx->t_bin) (auto->d_c) ()",
                "d_c (/bin/c) (d->t_any w->t_out) () ()",
            ],
            from: "t_in",
            to: "t_out",
            nodes: &[0, 128, 131, 3],
        },
        Case {
            why: "a passage after an object",
            domains: &[
                "d_boot () (d->t_any dx->t_bin) (exec->d_a exec->d_b exec->d_c) ()",
                "d_a (/bin/a) (d->t_any r->t_in d->t_left w->t_mid) () ()",
                "d_b (/bin/b) (d->t_any d->t_left r->t_mid dx->t_bin) (exec->d_c) ()",
                "d_c (/bin/c) (d->t_any w->t_out) () ()",
            ],
            from: "t_in",
            to: "t_out",
            nodes: &[0, 129, 1, 130, 131, 3],
        },
    ];

    #[test]
    fn chains(rt: HostRuntime) -> Result<(), Fail> {
        let heap = rt.alloc();
        check_cases(&rt, heap, &LETTERS)?;
        check_cases(&rt, heap, &PASSAGES)?;
        check_cases(&rt, heap, &LIVE)?;
        check_cases(&rt, heap, &BY_OBJECT)?;
        check_cases(&rt, heap, &LONG)
    }

    const FIVE: &str = "types t_any t_bin t_lim t_log
domains d_boot d_scale d_print
default_d d_boot
default_rt t_any
spec_domain d_boot (/boot) (d->t_any rxd->t_bin) (auto->d_scale exec->d_print) ()
spec_domain d_scale (/bin/scale) (d->t_any r->t_lim wa->t_log) () ()
spec_domain d_print (/bin/print) (d->t_any r->t_log c->t_any) () ()
assign -r /bin t_bin
assign -e /lim t_lim
assign -u /log t_log
object /bin/scale
object /bin/print
object /lim
object /log/day
object /label
";

    #[test]
    fn five_objects(rt: HostRuntime) -> Result<(), Fail> {
        let policy = open(rt.alloc(), FIVE.as_bytes())?;
        check_chain(
            &rt,
            &policy,
            &["t_lim"],
            &["t_any"],
            &[2, 129, 3, 130, 4],
            "five objects",
        )?;
        check_chain(&rt, &policy, &["t_any"], &["t_lim"], &[], "five objects")?;
        check_chain(&rt, &policy, &["t_log"], &["t_log"], &[3], "five objects")?;
        check_links(&rt, &policy, &["t_bin"], &["t_log"], Some(3))
    }

    // Between sets of several types the nearest two objects count.
    #[test]
    fn sets_of_types(rt: HostRuntime) -> Result<(), Fail> {
        let policy = open(rt.alloc(), FIVE.as_bytes())?;
        check_chain(
            &rt,
            &policy,
            &["t_any", "t_lim"],
            &["t_bin", "t_log"],
            &[2, 129, 3],
            "sets of types",
        )?;
        check_chain(
            &rt,
            &policy,
            &["t_any", "t_lim"],
            &["t_log", "t_any"],
            &[4],
            "sets of types",
        )?;
        check_chain(
            &rt,
            &policy,
            &["t_any", "t_log"],
            &["t_bin", "t_lim"],
            &[],
            "sets of types",
        )?;
        check_chain(&rt, &policy, &[], &["t_any", "t_log"], &[], "sets of types")?;
        check_links(&rt, &policy, &["t_lim", "t_bin"], &["t_any"], Some(3))
    }

    fn set_of(objects: &[u8]) -> Objects {
        let mut set = Objects::none();
        for o in objects {
            set.add(Obj(*o));
        }
        set
    }

    // Single objects, and numbers that no object has.
    #[test]
    fn sets_of_objects(rt: HostRuntime) -> Result<(), Fail> {
        let policy = open(rt.alloc(), FIVE.as_bytes())?;
        check_found(
            &rt,
            &policy,
            &set_of(&[1]),
            &set_of(&[3]),
            &[1, 128, 129, 3],
            "sets of objects",
        );
        check_found(
            &rt,
            &policy,
            &set_of(&[0, 4]),
            &set_of(&[1, 4]),
            &[4],
            "sets of objects",
        );
        check_found(
            &rt,
            &policy,
            &set_of(&[5, 127, 128, 255]),
            &set_of(&[5, 127, 128, 255]),
            &[],
            "sets of objects",
        );
        Ok(())
    }

    fn check_refused(rt: &impl Abort, policy: &SealedPolicy, from: &Objects, to: &Objects) {
        let mut buffer = [STALE; 159];
        assert_eq!(rt;
            policy.chart().search(from, to, &mut buffer),
            Err(Refusal::SmallBuffer)
        );
        assert!(rt; holds(&buffer, &[]));
    }

    // 159 bytes are too few, whether a chain leads there or not, and 160 are enough.
    #[test]
    fn small_buffers(rt: HostRuntime) -> Result<(), Fail> {
        let policy = open(rt.alloc(), FIVE.as_bytes())?;
        let lim = set_of(&[2]);
        let label = set_of(&[4]);
        check_refused(&rt, &policy, &lim, &label);
        check_refused(&rt, &policy, &label, &lim);
        assert_eq!(rt; Refusal::SmallBuffer.number(), Some(26));
        let mut buffer = [STALE; 160];
        assert_eq!(rt;
            policy.chart().spread(&lim).chain_to(&label, &mut buffer),
            Ok(Some(4))
        );
        assert!(rt; holds(&buffer, &[2, 129, 3, 130, 4]));
        Ok(())
    }
}
