//! How far a walk is, or what is made of walks.

ghost use Rattle.std.specs.Prelude.{◌≡◌, ◌++◌, ◌∷◌, [], List};
ghost use Rattle.mx_walk.specs.declared.progress.Part.{Part as Parts};

/// How many parts of a work are done, and of how many.
#[derive(Clone, Copy, Debug, PartialEq, Eq)]
pub struct Part {
    pub done: usize,
    pub all: usize,
}

/// Is shown how far a work is.
pub trait Progress {
    /// What it was shown, in order.
    ghost shown: { Self → List Parts };

    /// One part more is done.
    fn show(&mut self, part: Part)
        ensures { shown self.new ≡ shown self.old ++ part ∷ [] };

    /// A text is printed next, or the work ends: what is at a terminal goes from there.
    fn clear(&mut self)
        ensures { shown self.new ≡ shown self.old };
}
