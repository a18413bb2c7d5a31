ghost use Rattle.std.specs.Prelude.{◌≡◌, Some};
ghost use Rattle.list.specs.Values.{valued, truth_in, whole_in, path_in, of_truth, of_whole, shown};

use host::MOST_WHOLE;
use rows::Unital;
use std::fmt;

/// A value: 0 is unit, 1 false, 2 true, and n from 3 on the number n - 3.
#[derive(Clone, Copy, Debug, PartialEq, Eq)]
pub struct ListValue(pub u32);

impl Unital for ListValue {
    ghost unit = { valued 0 };

    fn unit() -> ListValue {
        ListValue(0)
    }
}

/// A value is told by its number.
impl fmt::Display for ListValue {
    ghost output = { λ v. Some (shown v) };

    fn fmt<W: fmt::Write>(&self, f: &mut fmt::Formatter<W>) -> fmt::Result {
        self.0.fmt(f)
    }
}

impl From<bool> for ListValue {
    ghost from_gives = { λ truth v. v ≡ of_truth truth };

    fn from(truth: bool) -> ListValue {
        ListValue(if truth { 2 } else { 1 })
    }
}

impl ListValue {
    /// The value of a number; a number that has none is the largest value.
    pub(crate) fn of_whole(number: u32) -> ListValue
        ensures { result ≡ of_whole number }
    {
        ListValue(number.saturating_add(3))
    }

    pub(crate) fn truth(self) -> Option<bool>
        ensures { result ≡ truth_in self }
    {
        match self.0 {
            1 => Some(false),
            2 => Some(true),
            _ => None,
        }
    }

    pub(crate) fn path(self) -> Option<u32>
        ensures { result ≡ path_in self }
    {
        self.0.checked_sub(3)
    }

    pub(crate) fn whole(self) -> Option<u32>
        ensures { result ≡ whole_in self }
    {
        self.path().filter(|number| *number <= MOST_WHOLE)
    }
}
