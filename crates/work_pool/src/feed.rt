//! Feeds: what gives jobs.

ghost use Rattle.std.specs.Prelude.{◌≡◌, true, List, Bool, [], ◌∷◌, ◌++◌, IfSome, IfNone};

/// What gives jobs one after another, to its end.
pub trait Feed {
    /// What is given.
    type Job;

    /// The jobs that it has given, in their order.
    ghost given: { Self → List Self.Job };

    /// Whether it has ended.
    ghost ended: { Self → Bool };

    /// The next job. `None` says that the feed has ended; the feed itself says why.
    fn next(&mut self) -> Option<Self::Job>
        ensures some { IfSome result (λ job. given self.new ≡ given self.old ++ job ∷ []) }
        ensures none { IfNone result ((given self.new ≡ given self.old) × (ended self.new ≡ true)) };
}
