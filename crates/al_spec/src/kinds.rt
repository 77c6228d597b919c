use crate::lent::Lent;
use al_values::ListOf;

/// One of the five words, which are written in small letters.
#[derive(Clone, Copy, Debug, PartialEq, Eq, Drop)]
pub enum Word {
    Setup,
    Teardown,
    Session,
    Step,
    Permutation,
}

/// What a token is.
#[derive(Drop)]
pub enum Lexeme<'a> {
    /// One of the five words.
    Word(Word),
    /// A name, plain or in double quotes.
    Name(Lent<'a>),
    /// A block, with its text cut of blanks at both ends.
    Block(Lent<'a>),
    /// A name in double quotes that isn't closed.
    OpenName,
    /// A block that isn't closed.
    OpenBlock,
    /// The end of what isn't closed.
    Unclosed,
    /// `(`
    Paren,
    /// What begins no token.
    Stray,
}

/// What a token is to the grammar.
#[derive(Clone, Copy, Debug, Drop)]
pub enum Kind {
    Setup,
    Teardown,
    Session,
    Step,
    Permutation,
    Name,
    Block,
    /// What no rule takes.
    Other,
}

/// A token, with the place of its first byte.
#[derive(Drop)]
pub struct Token<'a> {
    pub lexeme: Lexeme<'a>,
    pub start: u32,
}

/// Tokens, in the order of their places.
pub type TokenList<'a> = ListOf<Token<'a>>;
