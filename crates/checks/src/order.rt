ghost use Rattle.std.specs.Prelude.{◌≡◌};
ghost use Rattle.checks.specs.Rules.{in_order};

use image::Tables;

/// Whether the blocks use up the statements in order.
pub fn in_order(tables: &Tables) -> bool
    ensures { result ≡ in_order tables.now.image.now }
{
    let layout = tables.layout();
    let mut next: usize = 0;
    for b in 0..layout.blocks {
        let block = tables.block(b);
        if block.first as usize != next {
            return false;
        }
        next += block.count as usize;
    }
    next == layout.statements
}
