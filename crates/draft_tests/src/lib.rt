//! Examples of drafts, and of the faults of module texts.
#![tactic(auto)]

ghost use Rattle.std.specs.Prelude.{◌≡◌, IfOk};
ghost use Rattle.draft.specs.Drafts.{phase_of};

#[cfg(test)]
mod tests {
    // Cases are gone through in turn, and the first that fails ends the test.

    use draft::draft::Draft;
    use draft::fault::{Failure, Fault};
    use draft::phase::Phase;
    use draft::tokens::Rest;
    use label::numbers::{Dom, Obj, Typ};
    use label::refusal::Refusal;
    use reader::reason::Reason;
    use std::alloc::Global;
    use std::test::Fail;

    // A small grader: its programs, its limits and its log.
    const GRADER: &str = "types t_any t_bin t_lim t_log
domains d_boot d_scale d_print
default_d d_boot
default_rt t_any
spec_domain d_boot (/boot) (d->t_any rxd->t_bin) (auto->d_scale exec->d_print) ()
spec_domain d_scale (/bin/scale) (d->t_any r->t_lim wa->t_log) () ()
spec_domain d_print (/bin/print) (d->t_any r->t_log c->t_any) () ()
assign -r /bin t_bin
assign -e /lim t_lim
assign -u /log t_log
object /bin/scale
object /bin/print
object /lim
object /log/day
object /label
";

    fn fault(failure: Failure) -> Result<Fault, Fail> {
        match failure {
            Failure::Faulty(fault) => Ok(fault),
            Failure::Memory => Err(Fail::new("memory is wanting")),
        }
    }

    // The fault of the text as a first module.
    fn first_fault(heap: Global, text: &[u8]) -> Result<Fault, Fail> {
        let (mut draft, blank) = Draft::new();
        match draft.open(heap, blank, text) {
            Ok(rest) => {
                rest.give_up();
                Err(Fail::new("the text was taken"))
            }
            Err((blank, failure)) => {
                blank.give_up();
                fault(failure)
            }
        }
    }

    // The grader as a first module.
    fn opened(heap: Global) -> Result<(Draft, Rest), Fail>
        ensures { IfOk result (λ o. phase_of o.0 ≡ Phase.Rest) }
    {
        let (mut draft, blank) = Draft::new();
        match draft.open(heap, blank, GRADER.as_bytes()) {
            Ok(rest) => Ok((draft, rest)),
            // The token that comes back is given up before the failure goes on.
            Err((blank, _)) => {
                blank.give_up();
                Err(Fail::new("the grader is refused"))
            }
        }
    }

    // Keeps one more module, which says nothing, where the draft takes it.
    fn keep_more(draft: &mut Draft, heap: Global, rest: Rest) -> Rest
        requires { phase_of draft.old ≡ Phase.Rest }
        ensures { phase_of draft.new ≡ Phase.Rest }
    {
        match draft.try_module(heap, rest, b"# nothing") {
            Ok(trial) => draft.keep(trial),
            Err((rest, _)) => rest,
        }
    }

    // The fault of the text as a further module of the grader, after seven that say nothing or after none.
    fn further_fault(heap: Global, late: bool, text: &[u8]) -> Result<Fault, Fail> {
        let (mut draft, mut rest) = opened(heap)?;
        if late {
            for _ in 0..7 {
                rest = keep_more(&mut draft, heap, rest);
            }
        }
        match draft.try_module(heap, rest, text) {
            Ok(trial) => {
                draft.withdraw(trial).give_up();
                Err(Fail::new("the text was taken"))
            }
            Err((rest, failure)) => {
                rest.give_up();
                fault(failure)
            }
        }
    }

    // How many objects the grader has after a further module, which is kept or withdrawn.
    fn objects_after(heap: Global, text: &[u8], keeps: bool) -> Result<usize, Fail> {
        let (mut draft, rest) = opened(heap)?;
        let rest = match draft.try_module(heap, rest, text) {
            Ok(trial) => {
                if keeps {
                    draft.keep(trial)
                } else {
                    draft.withdraw(trial)
                }
            }
            Err((rest, _)) => rest,
        };
        let policy = draft.seal(rest);
        Ok(policy.decisions().policy().tables().objects().len())
    }

    #[test]
    fn a_grant_and_a_denial(rt: HostRuntime) -> Result<(), Fail> {
        let (draft, rest) = opened(rt.alloc())?;
        let policy = draft.seal(rest);
        assert_eq!(rt; policy.decisions().decide(Dom(0), Obj(0), 'x'), Ok(()));
        assert_eq!(rt;
            policy.decisions().decide(Dom(1), Obj(0), 'x'),
            Err(Refusal::Denied((4, 'd')))
        );
        Ok(())
    }

    #[test]
    fn faults_and_their_places(rt: HostRuntime) -> Result<(), Fail> {
        for (text, number, line, place) in [
            ("types t\n\\ ", 1, 2, 8),
            ("typs t", 2, 1, 0),
            ("types", 2, 1, 5),
            ("object x", 3, 1, 7),
            ("types t t", 4, 1, 8),
            ("default_d d", 5, 1, 10),
            (
                "domains d\nspec_domain d (/a /b /c /d /e /f /g /h /i)",
                6,
                2,
                49,
            ),
            ("types t\ndomains d\nspec_domain d () (z->t)", 7, 3, 36),
            ("domains d\nspec_domain d () () () (x)", 8, 2, 34),
            (
                "types t\ndomains d e f\ndefault_d d\ndefault_rt t\nspec_domain d () () (auto->e auto->f) ()\nspec_domain e (/x) () () ()\nspec_domain f (/x) () () ()",
                9,
                7,
                143,
            ),
            ("", 10, 1, 0),
            (
                "types t u\ndomains d\ndefault_d d\ndefault_rt t\nassign -r /u u\nobject /a\nobject /u/b\nspec_domain d () (rd->t rwd->u) () ()\napart t u\n",
                11,
                10,
                130,
            ),
        ] {
            let fault = first_fault(rt.alloc(), text.as_bytes())?;
            assert_eq!(rt; fault.reason.number(), number);
            assert_eq!(rt; fault.module, 1);
            assert_eq!(rt; fault.line, line);
            assert_eq!(rt; fault.place, place);
        }
        Ok(())
    }

    #[test]
    fn long_texts(rt: HostRuntime) -> Result<(), Fail> {
        let longest = first_fault(rt.alloc(), &[b'#'; 16384])?;
        assert_eq!(rt; longest.reason.number(), 10);
        assert_eq!(rt; longest.place, 16384);
        let longer = first_fault(rt.alloc(), &[b'#'; 16385])?;
        assert_eq!(rt; longer.reason.number(), 12);
        assert_eq!(rt; longer.line, 0);
        Ok(())
    }

    #[test]
    fn trials(rt: HostRuntime) -> Result<(), Fail> {
        assert_eq!(rt; objects_after(rt.alloc(), b"object /new", true)?, 6);
        assert_eq!(rt; objects_after(rt.alloc(), b"object /new", false)?, 5);
        assert_eq!(rt;
            objects_after(rt.alloc(), b"object /new\nobject /lim", true)?,
            5
        );
        Ok(())
    }

    #[test]
    fn further_modules(rt: HostRuntime) -> Result<(), Fail> {
        let broken = further_fault(rt.alloc(), false, b"apart t_log t_lim\napart t_lim t_log")?;
        assert_eq!(rt; broken.module, 2);
        assert_eq!(rt; broken.line, 2);
        assert_eq!(rt; broken.reason, Reason::Chain((Typ(2), Typ(3))));
        let ninth = further_fault(rt.alloc(), true, b"")?;
        assert_eq!(rt; ninth.reason.number(), 12);
        assert_eq!(rt; ninth.module, 9);
        Ok(())
    }
}
