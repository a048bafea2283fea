//! Trying, keeping and withdrawing modules, and sealing. Each call takes apart the state of the phase that it requires.
ghost use Rattle.std.specs.Prelude.{◌≡◌, false, Some, IfOk};
ghost use Rattle.flow.specs.Charts.{Charts};
ghost use Rattle.policy.specs.Abstract.{asked};
ghost use Rattle.policy.specs.Holds.{model_of};
ghost use Rattle.draft.specs.Drafts.{view, phase_of, blank as unopened, base, Opens, Tries, kept as kept_of, withdrawn};
ghost use Rattle.draft.specs.Endings.{Settled};

use crate::draft::{Draft, State};
use crate::fault::Failure;
use crate::module::Module;
use crate::phase::Phase;
use crate::sealed_policy::SealedPolicy;
use crate::settled::Composed;
use crate::tokens::{Blank, Rest, Trial};
use flow::chart::Chart;
use policy::sealed::Sealed;
use std::alloc::Global;
use std::mem;

impl Draft {
    // A draft with no module.
    pub fn new() -> (Draft, Blank)
        ensures { view result.0 ≡ unopened }
    {
        let draft = Draft {
            modules: 0,
            state: State::Blank,
        };
        (draft, Blank(()))
    }

    // Opens the draft with its first module.
    pub fn open(
        &mut self,
        heap: Global,
        blank: Blank,
        text: &[u8],
    ) -> Result<Rest, (Blank, Failure)>
        requires { phase_of self.old ≡ Phase.Blank }
        ensures { Opens text.now (view self.old) result (view self.new) }
    {
        match (Module { kept: 0, text }).compose(heap, None) {
            Ok(composed) => {
                self.state = State::Rest(composed);
                self.modules = 1;
                let Blank(_) = blank;
                Ok(Rest(()))
            }
            // The token goes back with the failure, so no closure may take it.
            Err(failure) => Err((blank, failure)),
        }
    }

    // Puts a further module on trial.
    pub fn try_module(
        &mut self,
        heap: Global,
        rest: Rest,
        text: &[u8],
    ) -> Result<Trial, (Rest, Failure)>
        requires { phase_of self.old ≡ Phase.Rest }
        ensures tries { Tries text.now (view self.old) result (view self.new) }
        ensures unspent { IfOk result (λ trial. trial.spent ≡ false) }
    {
        let State::Rest(kept) = mem::replace(&mut self.state, State::Blank) else {
            unreachable!()
        };
        let module = Module {
            kept: self.modules,
            text,
        };
        match module.compose(heap, Some(&kept)) {
            Ok(tried) => {
                self.state = State::Trial(kept, tried);
                let Rest(_) = rest;
                Ok(Trial { spent: false })
            }
            // The token goes back with the failure, so no closure may take it.
            Err(failure) => {
                self.state = State::Rest(kept);
                Err((rest, failure))
            }
        }
    }

    // Keeps the module on trial.
    pub fn keep(&mut self, trial: Trial) -> Rest
        requires { phase_of self.old ≡ Phase.Trial }
        ensures { view self.new ≡ kept_of (view self.old) }
    {
        trial.spend();
        let State::Trial(_, tried) = mem::replace(&mut self.state, State::Blank) else {
            unreachable!()
        };
        self.state = State::Rest(tried);
        self.modules += 1;
        Rest(())
    }

    // Withdraws the module on trial: all is as before the trial.
    pub fn withdraw(&mut self, trial: Trial) -> Rest
        requires { phase_of self.old ≡ Phase.Trial }
        ensures { view self.new ≡ withdrawn (view self.old) }
    {
        trial.spend();
        let State::Trial(kept, _) = mem::replace(&mut self.state, State::Blank) else {
            unreachable!()
        };
        self.state = State::Rest(kept);
        Rest(())
    }

    // Ends the draft: what was kept is the policy.
    pub fn seal(self, rest: Rest) -> SealedPolicy
        requires { phase_of self ≡ Phase.Rest }
        ensures tables { model_of result.decisions.policy ≡ (base (view self).kept).tables }
    {
        let Rest(_) = rest;
        let Draft { modules: _, state } = self;
        let State::Rest(kept) = state else {
            unreachable!()
        };
        let Composed {
            policy,
            specified: _,
        } = kept;
        policy
    }
}

impl SealedPolicy {
    // What the policy decides on its objects.
    pub fn decisions(&self) -> &Sealed
        ensures decisions { result.now ≡ self.now.decisions }
        ensures settled { ∥ Settled (model_of result.now.policy) ∥₁ }
    {
        &self.decisions
    }

    // The chart of its links.
    pub fn chart(&self) -> &Chart
        ensures chart { result.now ≡ self.now.chart }
        ensures charted { ∥ Charts (asked self.now.decisions.policy) result.now ∥₁ }
    {
        &self.chart
    }
}
