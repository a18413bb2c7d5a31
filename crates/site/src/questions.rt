ghost use Rattle.std.specs.Prelude.{◌≡◌};
ghost use Rattle.site.specs.Questions.{truth_of, number_up_to, item_of};

use crate::value::SiteValue;
use host::{Item, NoItem, number_in, number_up_to};

impl SiteValue {
    pub(crate) fn truth(self) -> Option<bool>
        ensures { result ≡ truth_of self }
    {
        match self {
            SiteValue::Truth(truth) => Some(truth),
            _ => None,
        }
    }

    /// The number in a value, where it is one from 0 up to `most`.
    pub(crate) fn number_up_to(self, most: u32) -> Option<u32>
        ensures { result ≡ number_up_to most self }
    {
        match self {
            SiteValue::Number(n) => number_up_to(n, most),
            _ => None,
        }
    }

    /// Item `i` of a range.
    pub(crate) fn item(self, i: u32) -> Item<SiteValue>
        ensures { result ≡ item_of self i }
    {
        match self {
            // `Ok(.. .map(..))` would pass an option inside a result on, which takes several times as long.
            SiteValue::Range(from, to) => match number_in(from, to, i) {
                Some(n) => Ok(Some(SiteValue::Number(n))),
                None => Ok(None),
            },
            _ => Err(NoItem::NotIterable),
        }
    }
}
