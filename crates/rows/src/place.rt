ghost use Rattle.std.specs.Prelude.{◌≡◌};
ghost use Rattle.rows.specs.Places.{text_of};

/// The text that a name is a part of.
#[derive(Clone, Copy, PartialEq, Eq, Debug)]
pub enum Source {
    Rule,
    Site,
}

/// Where the text of a name lies.
#[derive(Clone, Copy, PartialEq, Eq, Debug)]
pub struct Place {
    pub source: Source,
    pub offset: u32,
    pub length: u32,
}

/// The two texts that names are parts of.
#[derive(Clone, Copy)]
pub struct Texts<'a> {
    pub rule: &'a [u8],
    pub site: &'a [u8],
}

impl Place {
    /// The place that stands for no name.
    pub const NONE: Place = Place {
        source: Source::Rule,
        offset: 0,
        length: 0,
    };

    /// The part of the text that the place names; empty where the place does not fit.
    pub fn text<'a>(self, texts: Texts<'a>) -> &'a [u8]
        ensures { result.now ≡ text_of self texts.entry.rule.now texts.entry.site.now }
    {
        let whole = match self.source {
            Source::Rule => texts.rule,
            Source::Site => texts.site,
        };
        let from = self.offset as usize;
        let to = from + self.length as usize;
        // As a branch: `get(..).unwrap_or(&[])` is a choice without one, and takes twice the time in a search.
        if to <= whole.len() {
            &whole[from..to]
        } else {
            &whole[0..0]
        }
    }
}
