ghost use Rattle.std.specs.Prelude.{◌≡◌};
ghost use Rattle.rule.specs.Checked.{Lawful};

use image::Tables;

/// A rule whose image has passed the check. It borrows the image, so the image cannot be written while the rule is in use.
#[derive(Clone, Copy)]
pub struct CheckedRule<'a> {
    tables: Tables<'a>,
    ghost lawful: { Lawful tables.image.now },
}

impl<'a> CheckedRule<'a> {
    /// The rule's tables, through which its rows are read.
    pub fn tables(&self) -> Tables<'a>
        ensures { result ≡ self.now.tables }
    {
        self.tables
    }
}

mod check;
