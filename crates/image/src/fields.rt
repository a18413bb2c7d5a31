/// A statement row as it stands in the image, field by field.
#[derive(Clone, Copy, PartialEq, Eq, Debug)]
pub struct Fields {
    pub kind: u8,
    pub flags: u8,
    pub line: u16,
    pub column: u16,
    /// An expression.
    pub e: u16,
    /// A block.
    pub p: u16,
    /// A block, or an operator.
    pub q: u16,
    pub name_offset: u16,
    pub name_length: u16,
    /// An index, or the offset of a second name.
    pub r: u16,
    /// The length of a second name.
    pub t: u16,
}

impl Fields {
    /// In the place of an expression: none. In the place of a block: an empty one.
    pub const NONE: u16 = 65535;

    /// The flag of a variable that is constant.
    pub const CONSTANT: u8 = 1;

    /// The flag of a `Do` whose condition is negated.
    pub const NEGATED: u8 = 4;

    /// The flag of a `BreakLoop` that breaks, and of a `Return` that throws.
    pub const BREAK: u8 = 8;

    pub const LARGEST_FLAGS: u8 = 15;
}
