ghost use Rattle.std.specs.Prelude.{◌≡◌, ℕ, Bool};

// The nodes are the numbers below this.
pub const NODES: usize = 160;

// A directed graph over the nodes. What it answers of a number that is no node plays no part in a search.
pub trait Graph {
    ghost edge: { Self → ℕ → ℕ → Bool };

    // Whether an edge leads from `u` to `v`.
    fn linked(&self, u: usize, v: usize) -> bool
        ensures { result ≡ edge self.now u v };
}
