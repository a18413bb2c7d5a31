ghost use Rattle.std.specs.Prelude.{◌≡◌, find, ◌==◌};
ghost use Rattle.resolve.specs.declared.table.PathRow.{PathRow};
ghost use Rattle.resolve.specs.Table.{first_of};

use crate::resolver::{Resolved, Resolver};

/// What a table answers for one path.
#[derive(Clone, Copy, Debug, PartialEq, Eq)]
pub struct PathRow {
    pub path: u32,
    pub answer: Resolved,
}

fn first_row(rows: &[PathRow], path: u32) -> Option<PathRow>
    ensures { result ≡ find (λ (r : PathRow). r.path == path) rows.now }
{
    rows.iter().copied().find(|row| row.path == path)
}

/// A lent table of paths. The first row of a path counts, whatever it says.
#[derive(Clone, Copy, Debug, PartialEq, Eq)]
pub struct TableResolver<'a> {
    pub rows: &'a [PathRow],
}

impl<'a> Resolver for TableResolver<'a> {
    ghost answers = { λ t path. first_of t.rows.now path };

    fn resolve(&self, path: u32) -> Resolved {
        first_row(self.rows, path).map_or(Ok(None), |row| row.answer)
    }
}
