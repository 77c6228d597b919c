use al_values::ListOf;

/// A sign.
#[derive(Clone, Copy, Debug, PartialEq, Eq, Drop)]
pub enum Sign {
    /// `(`
    LeftParen,
    /// `)`
    RightParen,
    /// `,`
    Comma,
    /// `;`
    Semicolon,
    /// `.`
    Point,
    /// `=`
    Equal,
    /// `<>` or `!=`
    NotEqual,
    /// `<`
    Less,
    /// `<=`
    LessOrEqual,
    /// `>`
    Greater,
    /// `>=`
    GreaterOrEqual,
    /// `+`
    Plus,
    /// `-`
    Minus,
    /// `*`
    Star,
    /// `/`
    Slash,
    /// `%`
    Percent,
    /// `||`
    Joined,
    /// `::`
    Cast,
}

/// What a token is.
#[derive(Clone, Copy, Debug, PartialEq, Eq, Drop)]
pub enum TokenKind {
    /// An ASCII letter or `_`, and as many ASCII letters, digits and `_` as follow.
    Word,
    /// What stands in double quotes, where `""` is one quote. It isn't empty.
    QuotedName,
    /// Digits that no letter and no point follows.
    Integer,
    /// What stands in single quotes, where `''` is one quote. It may be empty.
    Text,
    /// A sign, the longest that begins there.
    Sign(Sign),
    /// Digits that a letter or a point follows, with as many letters, digits and points as follow. No rule takes it.
    OddNumber,
}

/// A token: its kind, the place of its first byte, and the place behind its last one.
#[derive(Clone, Copy, Debug, PartialEq, Eq, Drop)]
pub struct Token {
    /// What it is.
    pub kind: TokenKind,
    /// The place of its first byte.
    pub start: u32,
    /// The place behind its last byte.
    pub end: u32,
}

/// Tokens, in the order of their places.
pub type TokenList = ListOf<Token>;

/// A text that isn't tokens.
#[derive(Clone, Copy, Debug, PartialEq, Eq, Drop)]
pub struct Lex {
    /// The place of the first byte that begins no token; the text's length where a quote is unclosed.
    pub at: u32,
}

/// What ends the tokens of a text.
#[derive(Clone, Copy, Debug, PartialEq, Eq, Drop)]
pub enum Ending {
    /// The text's end.
    Whole,
    /// A byte that begins no token.
    Stray {
        /// The byte's place.
        at: u32,
    },
    /// A name in double quotes that nothing closes.
    OpenName {
        /// The place of its first quote.
        at: u32,
    },
    /// A text in single quotes that nothing closes.
    OpenText {
        /// The place of its first quote.
        at: u32,
    },
}

/// The tokens in front of the first place where none begins, and what stands there.
#[derive(Debug, Drop)]
pub struct Front {
    /// The tokens, in the order of their places.
    pub tokens: TokenList,
    /// What ends them.
    pub ending: Ending,
}
