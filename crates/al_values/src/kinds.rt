ghost use Rattle.std.specs.Prelude.{◌≡◌};
ghost use Rattle.al_values.specs.Kinds.{group_of, fits};

/// The kind of a column (manual, chapter 8, Data Types).
#[derive(Clone, Copy, Debug, PartialEq, Eq)]
pub enum Kind {
    /// An integer of 16 bits (8.1.1).
    Smallint,
    /// An integer of 32 bits.
    Integer,
    /// An integer of 64 bits.
    Bigint,
    /// True or false (8.6).
    Boolean,
    /// A text of any length (8.3).
    Text,
    /// A text of at most so many characters.
    Varchar(u32),
    /// A day of the calendar (8.5).
    Date,
}

impl Kind {
    /// The group that it belongs to.
    pub fn group(self) -> Group
        ensures { result ≡ group_of self }
    {
        match self {
            Kind::Smallint | Kind::Integer | Kind::Bigint => Group::Integers,
            Kind::Boolean => Group::Boolean,
            Kind::Text | Kind::Varchar(_) => Group::Texts,
            Kind::Date => Group::Date,
        }
    }

    /// Whether it is an integer kind that has the number (manual, 8.1.1).
    pub fn fits(self, number: i64) -> bool
        ensures { result ≡ fits self number }
    {
        match self {
            Kind::Smallint => (-32_768..=32_767).contains(&number),
            Kind::Integer => (-2_147_483_648..=2_147_483_647).contains(&number),
            Kind::Bigint => true,
            _ => false,
        }
    }
}

/// The groups of kinds: conversions and operators go by them.
#[derive(Clone, Copy, Debug, PartialEq, Eq)]
pub enum Group {
    /// The three integer kinds.
    Integers,
    /// True or false.
    Boolean,
    /// Texts, with a greatest length or without one.
    Texts,
    /// Days.
    Date,
}

/// A truth value of three-valued logic (manual, 9.1, Logical Operators).
#[derive(Clone, Copy, Debug, PartialEq, Eq)]
pub enum Tri {
    /// True.
    Yes,
    /// False.
    No,
    /// Neither: a null stood in the way.
    Unknown,
}

/// Why a conversion is refused.
#[derive(Clone, Copy, Debug, PartialEq, Eq)]
pub enum CastFault {
    /// A number outside the integer kind.
    OutOfRange,
    /// A text that is no integer, or no boolean.
    BadText,
    /// A text that is no day of the years 1 to 9999.
    BadDate,
    /// A text of more characters than the kind takes.
    TooLong,
    /// There is no such conversion.
    NoCast,
}
