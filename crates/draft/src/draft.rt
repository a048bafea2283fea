// A draft, and what it holds in the phase that it is in.
ghost use Rattle.std.specs.Prelude.{◌≡◌, true};
ghost use Rattle.draft.specs.Phases.{phase_in, in_bounds};

use crate::settled::Composed;

#[derive(Drop)]
pub enum State {
    // no module yet
    Blank,
    // what the modules that were kept come to
    Rest(Composed),
    // the same, and what they come to with the module on trial
    Trial(Composed, Composed),
}

#[derive(Drop)]
pub struct Draft {
    // how many modules were kept, the first counted
    pub(crate) modules: usize,
    pub(crate) state: State,
    ghost few: { in_bounds (phase_in state) modules ≡ true },
}
