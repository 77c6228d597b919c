use al_values::{Kind, Name, Txt, Value};
use sqlite_items::{Boxed, Items};

/// A comparison (the manual, 9.2).
#[derive(Clone, Copy, Debug, PartialEq, Eq)]
pub enum Comparison {
    /// `=`
    Equal,
    /// `<>` or `!=`
    NotEqual,
    /// `<`
    Less,
    /// `<=`
    LessOrEqual,
    /// `>`
    Greater,
    /// `>=`
    GreaterOrEqual,
}

/// An operator of arithmetic (the manual, 9.3 and 9.9).
#[derive(Clone, Copy, Debug, PartialEq, Eq)]
pub enum Arithmetic {
    /// `+`
    Add,
    /// `-`
    Subtract,
    /// `*`
    Multiply,
    /// `/`
    Divide,
    /// `%`
    Remainder,
}

/// What stands between two operands.
#[derive(Clone, Copy, Debug, PartialEq, Eq)]
pub enum Operator {
    /// OR
    Or,
    /// AND
    And,
    /// A comparison.
    Compare(Comparison),
    /// `||`
    Concat,
    /// Arithmetic.
    Calculate(Arithmetic),
}

/// What stands before its operand.
#[derive(Clone, Copy, Debug, PartialEq, Eq)]
pub enum Prefix {
    /// NOT
    Not,
    /// `-`
    Minus,
    /// `+`
    Plus,
}

/// An expression. A `u32` is the byte at which the node's own token begins: a literal, a name, an operator, the word of
/// a function or of CAST, the NOT of NOT BETWEEN and NOT IN. Parentheses make no node.
///
/// Operators that stand in a row are one node, so that the tree is no deeper than the text's brackets and precedences.
#[derive(Debug, Drop)]
pub enum Expr {
    /// An integer without its sign, TRUE, FALSE, or a string or NULL, which have no kind of their own.
    Literal(u32, Value),
    /// DATE and a string.
    Date(u32, Txt),
    /// The name of a column.
    Column(u32, Name),
    /// Binary operators in a row, grouped from the left: the first operand, then each operator with its right side.
    Chain(Boxed<Expr>, Items<(u32, Operator, Expr)>),
    /// NOTs and signs in a row: the operand, then each from the inside.
    Prefixed(Boxed<Expr>, Items<(u32, Prefix)>),
    /// CAST, or `::` in a row: the operand, then each cast from the inside.
    Casts(Boxed<Expr>, Items<(u32, Kind)>),
    /// IS NULL and IS NOT NULL (true) in a row, from the inside.
    IsNull(Boxed<Expr>, Items<(u32, bool)>),
    /// BETWEEN, or NOT BETWEEN (true): the value and the two ends.
    Between(u32, bool, Boxed<Expr>, Boxed<Expr>, Boxed<Expr>),
    /// IN, or NOT IN (true): the value and the list.
    In(u32, bool, Boxed<Expr>, Items<Expr>),
    /// The first value that isn't null.
    Coalesce(u32, Items<Expr>),
    /// An integer without its sign.
    Abs(u32, Boxed<Expr>),
    /// How many characters a text has.
    Length(u32, Boxed<Expr>),
}
