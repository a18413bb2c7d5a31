ghost use Rattle.std.specs.Prelude.{◌≡◌, ℕ};
ghost use Rattle.resolve.specs.Answers.{Resolved};

use host::Fault;

/// The answer of a resolver: a module, or none where there is no module under the path.
pub type Resolved = Result<Option<u32>, Fault>;

/// A resolver answers each path by itself: asking changes nothing.
pub trait Resolver {
    ghost answers: { Self → ℕ → Resolved };

    /// What stands under a path.
    fn resolve(&self, path: u32) -> Resolved
        ensures { result ≡ answers self.now path };
}
