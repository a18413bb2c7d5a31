ghost use Rattle.resolve.specs.Pair.{unless_found};

use crate::resolver::{Resolved, Resolver};

/// Two resolvers in a row: the second is asked where the first finds nothing.
#[derive(Clone, Copy)]
pub struct Pair<A, B> {
    pub first: A,
    pub second: B,
}

impl<A: Resolver, B: Resolver> Resolver for Pair<A, B> {
    ghost answers = { λ p path. unless_found (A.Resolver.answers p.first path) (B.Resolver.answers p.second path) };

    fn resolve(&self, path: u32) -> Resolved {
        match self.first.resolve(path) {
            Ok(None) => self.second.resolve(path),
            found => found,
        }
    }
}
