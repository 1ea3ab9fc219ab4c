//! The attributes of a row, where they are few.

ghost use Rattle.std.specs.Prelude.{◌≡◌};
ghost use Rattle.be_shape.specs.Listed.{is_many};

/// The attributes of a row, or of many rows of a leaf, where they are told: at most three and below 256. Where a row has two
/// tests on an attribute, it stands twice.
#[derive(Clone, Copy)]
pub enum RowAttrs {
    Zero,
    One(u8),
    Two(u8, u8),
    Three(u8, u8, u8),
    /// They aren't told.
    Many,
}

impl RowAttrs {
    /// Whether they aren't told.
    pub fn is_many(self) -> bool
        ensures { result ≡ is_many self }
    {
        match self {
            RowAttrs::Many => true,
            _ => false,
        }
    }
}
