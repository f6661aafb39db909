//! The terminals of the grammar: tokens without their place in the source.

use aqe_values::Text;

/// A reserved word or a symbol.
#[derive(Clone, Copy, Debug, PartialEq, Eq, Drop)]
pub enum Key {
    All,
    And,
    Anti,
    As,
    Asc,
    Between,
    By,
    Case,
    Cast,
    Create,
    Cross,
    Desc,
    Distinct,
    Div,
    Else,
    End,
    False,
    From,
    Full,
    Group,
    Having,
    In,
    Inner,
    Is,
    Join,
    Left,
    Like,
    Limit,
    Not,
    Null,
    Nulls,
    Offset,
    On,
    Or,
    Order,
    Outer,
    Right,
    Select,
    Semi,
    Set,
    Then,
    True,
    Union,
    Using,
    When,
    Where,
    /// `(`
    Open,
    /// `)`
    Close,
    /// `,`
    Comma,
    /// `.`
    Dot,
    /// `;`
    Semicolon,
    /// `*`
    Star,
    /// `+`
    Plus,
    /// `-`
    Minus,
    /// `%`
    Percent,
    /// `=`
    Equal,
    /// `==`
    DoubleEqual,
    /// `<=>`
    Same,
    /// `<>` or `!=`
    NotEqual,
    /// `<`
    Less,
    /// `<=`
    AtMost,
    /// `>`
    Greater,
    /// `>=`
    AtLeast,
}

/// One terminal of the grammar.
#[derive(Drop)]
pub enum Terminal {
    /// A reserved word in any case, or a symbol.
    Fixed(Key),
    /// A word that is not reserved, as it is spelled, or a name that stood between backquotes.
    Name { text: Text, quoted: bool },
    /// The content of a string.
    Literal(Text),
    /// A number, and whether it ends in the letter of BIGINT.
    Number { value: u64, long: bool },
    /// A token that no rule of the grammar takes, as `64MB`.
    Mixed,
}
