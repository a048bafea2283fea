// Module texts composed to a policy: the first opens a draft, each further one is tried and kept.
ghost use Rattle.std.specs.Prelude.{◌≡◌};
ghost use Rattle.draft.specs.Drafts.{phase_of};

use crate::files::Module;
use draft::draft::Draft;
use draft::fault::Failure;
use draft::phase::Phase;
use draft::sealed_policy::SealedPolicy;
use draft::tokens::Rest;
use std::alloc::Global;

fn keep(draft: &mut Draft, heap: Global, rest: Rest, text: &[u8]) -> Result<Rest, (Rest, Failure)>
    requires { phase_of draft.old ≡ Phase.Rest }
    ensures { phase_of draft.new ≡ Phase.Rest }
{
    let trial = draft.try_module(heap, rest, text)?;
    Ok(draft.keep(trial))
}

fn keep_all(
    heap: Global,
    mut draft: Draft,
    mut rest: Rest,
    further: &[Module],
) -> Result<SealedPolicy, Failure>
    requires { phase_of draft ≡ Phase.Rest }
{
    for module in further {
        match keep(&mut draft, heap, rest, module.text.as_slice()) {
            Ok(next) => rest = next,
            // The token that comes back is given up before the failure goes on.
            Err((back, failure)) => {
                back.give_up();
                return Err(failure);
            }
        }
    }
    Ok(draft.seal(rest))
}

pub(crate) fn compose(
    heap: Global,
    first: &[u8],
    further: &[Module],
) -> Result<SealedPolicy, Failure> {
    let (mut draft, blank) = Draft::new();
    match draft.open(heap, blank, first) {
        Ok(rest) => keep_all(heap, draft, rest, further),
        // The token that comes back is given up before the failure goes on.
        Err((blank, failure)) => {
            blank.give_up();
            Err(failure)
        }
    }
}
