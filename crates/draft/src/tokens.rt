//! Tokens beside a draft: each stands for the phase that the draft is in, and cannot be made elsewhere.
ghost use Rattle.std.specs.Prelude.{◌≡◌, IsTrue};

// Each phase has a token of its own type, so that none is taken for another's.

// The draft has no module yet.
pub struct Blank(pub(crate) ());

// The draft is at rest: a module can be tried, or the draft sealed.
pub struct Rest(pub(crate) ());

// A module is on trial. It has to be kept or withdrawn: only a spent token may be let go, and the one that a caller is given is not spent.
pub struct Trial {
    pub(crate) spent: bool,
}

impl Drop for Trial {
    fn drop(self)
        requires { IsTrue self.spent }
    {
        let Trial { spent: _ } = self;
    }
}

impl Trial {
    pub(crate) fn spend(mut self) {
        self.spent = true;
    }
}

impl Blank {
    // Gives the draft up before it was opened. Nothing but the token is used up.
    pub fn give_up(self)
        ensures { result ≡ tt }
    {
        let Blank(_) = self;
    }
}

impl Rest {
    // Gives the draft up. Nothing but the token is used up.
    pub fn give_up(self)
        ensures { result ≡ tt }
    {
        let Rest(_) = self;
    }
}
