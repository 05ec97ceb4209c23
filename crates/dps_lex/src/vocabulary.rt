//! Tokens, faults and refusals.

ghost use Rattle.std.specs.Prelude.{◌≡◌};
ghost use Rattle.dps_lex.specs.Spelling.{fault_words};

/// What a token is: a keyword, a sign, an identifier or a number.
#[derive(Clone, Copy, PartialEq, Eq, Debug)]
pub enum TokenKind {
    /// `free`
    Free,
    /// `const`
    Const,
    /// `fun`
    Fun,
    /// `reduc`
    Reduc,
    /// `let`
    Let,
    /// `in`
    In,
    /// `out`
    Out,
    /// `if`
    If,
    /// `then`
    Then,
    /// `else`
    Else,
    /// `new`
    New,
    /// `query`
    Query,
    /// `trace_equiv`
    TraceEquiv,
    /// `private`
    Private,
    /// `(`
    OpenParenthesis,
    /// `)`
    CloseParenthesis,
    /// `[`
    OpenBracket,
    /// `]`
    CloseBracket,
    /// `,`
    Comma,
    /// `;`
    Semicolon,
    /// `.`
    Dot,
    /// `/`
    Slash,
    /// `=`
    Equals,
    /// `|`
    Bar,
    /// `+`
    Plus,
    /// `!`
    Bang,
    /// `^`
    Caret,
    /// `->`
    Arrow,
    /// A letter, then letters, digits, `_` and `'`: at most 64 bytes, and no keyword.
    Identifier,
    /// `0`, or digits that do not begin with 0; at most 1,000,000.
    Number,
}

/// One token of a text. Its text is the slice `start..end` of the text's bytes.
#[derive(Clone, Copy, PartialEq, Eq, Debug)]
pub struct Token {
    pub kind: TokenKind,
    /// The offset of its first byte.
    pub start: u32,
    /// The offset behind its last byte.
    pub end: u32,
    /// The line of its first byte, from 1.
    pub line: u32,
    /// The column of its first byte, from 1, in bytes.
    pub column: u32,
}

/// What is wrong at a place of a text. The first five are lexical faults, the others are faults of the syntax.
#[derive(Clone, Copy, PartialEq, Eq, Debug)]
pub enum FaultKind {
    /// A byte that begins no blank, no comment and no token.
    BadByte,
    /// A `(*` whose comment does not end; of nested ones the outermost.
    OpenComment,
    /// A name of more than 64 bytes.
    LongName,
    /// Two digits or more, of which the first is 0; so too where their value would be large.
    BadNumber,
    /// A number above 1,000,000.
    LargeNumber,
    /// A token that no file has at this place.
    UnexpectedToken,
    /// The end of the text where no file ends.
    UnexpectedEnd,
    /// A process, pattern or term that is nested too deep.
    TooDeep,
}

impl FaultKind {
    /// What is printed for the fault, as `bad byte`.
    pub fn words(self) -> &'static str
        ensures { result.now ≡ fault_words self }
    {
        match self {
            FaultKind::BadByte => "bad byte",
            FaultKind::OpenComment => "open comment",
            FaultKind::LongName => "long name",
            FaultKind::BadNumber => "bad number",
            FaultKind::LargeNumber => "large number",
            FaultKind::UnexpectedToken => "unexpected token",
            FaultKind::UnexpectedEnd => "unexpected end",
            FaultKind::TooDeep => "too deep",
        }
    }
}

/// A fault and its place.
#[derive(Clone, Copy, PartialEq, Eq, Debug)]
pub struct Fault {
    /// The line, from 1.
    pub line: u32,
    /// The column, from 1, in bytes.
    pub column: u32,
    pub kind: FaultKind,
}

/// A place of a text.
#[derive(Clone, Copy, PartialEq, Eq, Debug)]
pub struct Place {
    /// The line, from 1.
    pub line: u32,
    /// The column, from 1, in bytes.
    pub column: u32,
}

/// Why there are no tokens.
#[derive(Clone, Copy, PartialEq, Eq, Debug)]
pub enum LexRefusal {
    /// The first lexical fault of the text.
    Fault(Fault),
    /// Want of memory.
    Memory,
}
