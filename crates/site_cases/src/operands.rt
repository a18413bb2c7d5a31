//! The operands that the cases are made of.

use rows::{Place, Source};
use site::{Operand, SiteValue};

/// A place in one of the two texts, by its offset and its length.
macro_rules! place {
    ($source:ident, $offset:expr, $length:expr) => {
        Place {
            source: Source::$source,
            offset: $offset,
            length: $length,
        }
    };
}

pub const UNIT: Operand = Operand::Constant(SiteValue::Unit);

pub const YES: Operand = Operand::Constant(SiteValue::Truth(true));

pub const NO: Operand = Operand::Constant(SiteValue::Truth(false));

pub const LOW: Operand = Operand::Constant(SiteValue::Number(i64::MIN));

pub const HIGH: Operand = Operand::Constant(SiteValue::Number(i64::MAX));

pub const MINUS_ONE: Operand = Operand::Constant(SiteValue::Number(-1));

pub const ZERO: Operand = Operand::Constant(SiteValue::Number(0));

pub const ONE: Operand = Operand::Constant(SiteValue::Number(1));

pub const TWO: Operand = Operand::Constant(SiteValue::Number(2));

pub const ALL: Operand = Operand::Constant(SiteValue::Range(i64::MIN, i64::MAX));

pub const THREE_FROM_0: Operand = Operand::Constant(SiteValue::Range(0, 3));

pub const FOUR_FROM_0: Operand = Operand::Constant(SiteValue::Range(0, 4));

pub const TWO_FROM_1: Operand = Operand::Constant(SiteValue::Range(1, 3));

pub const THREE_FROM_1: Operand = Operand::Constant(SiteValue::Range(1, 4));

/// The rule's text.
pub static RULE: [u8; 3] = *b"abx";

/// The site's text.
pub static SITE: [u8; 3] = *b"bca";

/// The name `a`, in either text.
pub const A: Operand = Operand::Variable(A_IN_RULE);

pub const SITE_A: Operand = Operand::Variable(A_IN_SITE);

pub const A_IN_RULE: Place = place!(Rule, 0, 1);

pub const A_IN_SITE: Place = place!(Site, 2, 1);

/// The name `b`, in either text.
pub const B: Operand = Operand::Variable(B_IN_RULE);

pub const SITE_B: Operand = Operand::Variable(B_IN_SITE);

pub const B_IN_RULE: Place = place!(Rule, 1, 1);

pub const B_IN_SITE: Place = place!(Site, 0, 1);

/// The name `c`.
pub const C: Operand = Operand::Variable(C_IN_SITE);

pub const C_IN_SITE: Place = place!(Site, 1, 1);

/// The name `x`, which no variable has.
pub const X: Operand = Operand::Variable(place!(Rule, 2, 1));

/// The name `ab`, which no variable has.
pub const AB: Operand = Operand::Variable(place!(Rule, 0, 2));

/// Places that read as empty: one that does not fit, no name, one at the text's end, and one far past it.
pub const PAST_RULE: Operand = Operand::Variable(place!(Rule, 3, 1));

pub const NO_NAME: Operand = Operand::Variable(place!(Rule, 0, 0));

pub const SITE_END: Operand = Operand::Variable(place!(Site, 3, 0));

pub const FAR: Operand = Operand::Variable(place!(Site, u32::MAX, u32::MAX));

pub const PAST_SITE: Place = place!(Site, 3, 1);
