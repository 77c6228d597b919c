use al_values::{ListOf, Txt};

/// A token with what the grammar sees of it.
#[derive(Debug, Drop)]
pub struct Lexeme {
    /// Its kind, a number of `specs/Kinds.antt`.
    pub kind: u8,
    /// Whether an opening parenthesis stands directly behind it, blanks apart.
    pub called: bool,
    /// The byte at which it begins.
    pub place: u32,
    /// A word in small letters, or what stands in quotes with doubled quotes as one; else nothing.
    pub text: Txt,
    /// An integer's value; else 0.
    pub number: i64,
}

/// Tokens in the order of their places.
pub type LexemeList = ListOf<Lexeme>;
