//! What a run is, and what is promised of it.
#![tactic(auto)]

ghost use Rattle.std.specs.Prelude.{ℕ};
ghost use Rattle.run.specs.Promise.{Promise, EveryRunEnds};

use host::Host;
use resolve::Resolver;

/// For every host and every resolver, and whatever working rows are: what a session promises, and that its runs end.
pub fn promise<H: Host, R: Resolver, W>()
    ensures promise { (r : R) → Promise W H.Host.meaning (R.Resolver.answers r) }
    ensures ends { (r : R) → EveryRunEnds H.Host.meaning (R.Resolver.answers r) }
{}
