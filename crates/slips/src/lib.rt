//! Uses drafts. What a user may not do with their tokens, the prover refuses: see must-fail/.
#![tactic(auto)]

ghost use Rattle.slips.specs.Policies.{Alone, Opened, Beside};

use draft::draft::Draft;
use draft::fault::Failure;
use draft::sealed_policy::SealedPolicy;
use draft::tokens::Rest;
use std::alloc::Global;

fn open_with(heap: Global, base: &[u8]) -> Result<(Draft, Rest), Failure>
    ensures { Opened base.now result }
{
    let (mut draft, blank) = Draft::new();
    match draft.open(heap, blank, base) {
        Ok(rest) => Ok((draft, rest)),
        // The token that comes back is given up before the failure goes on.
        Err((blank, failure)) => {
            blank.give_up();
            Err(failure)
        }
    }
}

// The policy of the base alone, after a further module was tried and withdrawn.
pub fn seal_without(heap: Global, base: &[u8], extra: &[u8]) -> Result<SealedPolicy, Failure>
    ensures { Alone base.now result }
{
    let (mut draft, rest) = open_with(heap, base)?;
    let rest = match draft.try_module(heap, rest, extra) {
        Ok(trial) => draft.withdraw(trial),
        Err((rest, _)) => rest,
    };
    Ok(draft.seal(rest))
}

// The policy of the base alone, from one of two drafts; the other stays blank.
pub fn seal_beside_blank(heap: Global, base: &[u8]) -> Result<SealedPolicy, Failure>
    ensures { Alone base.now result }
{
    let (other, blank) = Draft::new();
    blank.give_up();
    let (draft, rest) = open_with(heap, base)?;
    Ok(draft.seal(rest))
}

// Two policies from two drafts: of the base alone, and with the further module.
pub fn seal_both(
    heap: Global,
    base: &[u8],
    extra: &[u8],
) -> Result<(SealedPolicy, SealedPolicy), Failure>
    ensures { Beside base.now extra.now result }
{
    let (mut one, first) = open_with(heap, base)?;
    let (mut two, second) = match open_with(heap, base) {
        Ok(opened) => opened,
        Err(failure) => {
            first.give_up();
            return Err(failure);
        }
    };
    match two.try_module(heap, second, extra) {
        Ok(trial) => {
            let second = two.keep(trial);
            Ok((one.seal(first), two.seal(second)))
        }
        // The token that comes back is given up before the failure goes on.
        Err((second, failure)) => {
            first.give_up();
            second.give_up();
            Err(failure)
        }
    }
}
