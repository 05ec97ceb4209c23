//! The grammar, as tables.

ghost use Rattle.std.specs.Prelude.{◌≡◌, ◌+◌, [], ◌∷◌, map, MatchOption, Some, None};
ghost use Rattle.std.specs.List.{list_any};
ghost use Rattle.dps_syntax.specs.Grammar.{is_same, takes, alternatives, firsts, continuation, begins, begins_all, chosen};
ghost use Rattle.dps_syntax.specs.Depth.{own_depth};

use dps_lex::TokenKind;

/// A production of the grammar.
#[derive(Clone, Copy, PartialEq, Eq, Debug)]
pub enum Production {
    /// A declaration.
    Decl,
    /// Names with commas between them.
    Ids,
    /// A rewrite rule.
    Rule,
    /// The query at a file's end.
    Query,
    /// Processes side by side, with `|` between them.
    Par,
    /// A choice between processes, with `+` between them.
    Sum,
    /// A process that begins with an action, or one in brackets.
    Pre,
    /// A pattern of an input or a `let`.
    Pattern,
    /// A term.
    Term,
}

/// What the grammar sees of a token: its kind, and whether it is the number `0`.
#[derive(Clone, Copy, PartialEq, Eq, Debug)]
pub enum Word {
    /// A token of this kind, other than the number `0`.
    Of(TokenKind),
    /// The number `0`.
    Zero,
}

/// An option of the grammar. Most are repetitions: they end with themselves.
#[derive(Clone, Copy, PartialEq, Eq, Debug)]
pub enum More {
    /// One more declaration.
    Declarations,
    /// `[private]`
    Private,
    /// A comma, and one more constructor with its arity.
    Functions,
    /// A semicolon, and one more rule.
    Rules,
    /// The parameters of a process, in brackets.
    Parameters,
    /// A comma, and one more name.
    Names,
    /// A comma, and one more term.
    Terms,
    /// `|`, and one more process.
    Parallel,
    /// `+`, and one more process.
    Choice,
    /// A semicolon, and how a process goes on.
    Then,
    /// `else`, and the other branch.
    Else,
    /// The arguments of a process, in brackets: one or more.
    Arguments,
    /// A comma, and one more pattern.
    Patterns,
    /// The arguments of a function, in brackets: none or more.
    Brackets,
    /// The terms between such brackets.
    Filling,
}

/// A symbol of the grammar.
#[derive(Clone, Copy, PartialEq, Eq, Debug)]
pub enum Symbol {
    /// A token that is this word. Where it is a number, it may also be `0`.
    Sign(Word),
    /// A production.
    Inner(Production),
    /// What may be left out.
    More(More),
    /// The end of a production, where a reader expects it. No row of the grammar has one.
    Close(Production),
}

/// A step through a derivation tree: a production begins, a word, a production ends.
#[derive(Clone, Copy)]
pub(crate) enum Mark {
    Open(Production),
    Token(Word),
    Close(Production),
}

// The symbols of the tables. `A_TERM` is a production, `PERHAPS_ELSE` an option, and `MORE_TERMS` a repetition.
const FREE: Symbol = Symbol::Sign(Word::Of(TokenKind::Free));

const CONST: Symbol = Symbol::Sign(Word::Of(TokenKind::Const));

const FUN: Symbol = Symbol::Sign(Word::Of(TokenKind::Fun));

const REDUC: Symbol = Symbol::Sign(Word::Of(TokenKind::Reduc));

const LET: Symbol = Symbol::Sign(Word::Of(TokenKind::Let));

const IN: Symbol = Symbol::Sign(Word::Of(TokenKind::In));

const OUT: Symbol = Symbol::Sign(Word::Of(TokenKind::Out));

const IF: Symbol = Symbol::Sign(Word::Of(TokenKind::If));

const THEN: Symbol = Symbol::Sign(Word::Of(TokenKind::Then));

const ELSE: Symbol = Symbol::Sign(Word::Of(TokenKind::Else));

const NEW: Symbol = Symbol::Sign(Word::Of(TokenKind::New));

const QUERY: Symbol = Symbol::Sign(Word::Of(TokenKind::Query));

const TRACE_EQUIV: Symbol = Symbol::Sign(Word::Of(TokenKind::TraceEquiv));

const PRIVATE: Symbol = Symbol::Sign(Word::Of(TokenKind::Private));

const OPEN: Symbol = Symbol::Sign(Word::Of(TokenKind::OpenParenthesis));

const CLOSE: Symbol = Symbol::Sign(Word::Of(TokenKind::CloseParenthesis));

const OPEN_BRACKET: Symbol = Symbol::Sign(Word::Of(TokenKind::OpenBracket));

const CLOSE_BRACKET: Symbol = Symbol::Sign(Word::Of(TokenKind::CloseBracket));

const COMMA: Symbol = Symbol::Sign(Word::Of(TokenKind::Comma));

const SEMICOLON: Symbol = Symbol::Sign(Word::Of(TokenKind::Semicolon));

const DOT: Symbol = Symbol::Sign(Word::Of(TokenKind::Dot));

const SLASH: Symbol = Symbol::Sign(Word::Of(TokenKind::Slash));

const EQUALS: Symbol = Symbol::Sign(Word::Of(TokenKind::Equals));

const BAR: Symbol = Symbol::Sign(Word::Of(TokenKind::Bar));

const PLUS: Symbol = Symbol::Sign(Word::Of(TokenKind::Plus));

const BANG: Symbol = Symbol::Sign(Word::Of(TokenKind::Bang));

const CARET: Symbol = Symbol::Sign(Word::Of(TokenKind::Caret));

const ARROW: Symbol = Symbol::Sign(Word::Of(TokenKind::Arrow));

const IDENTIFIER: Symbol = Symbol::Sign(Word::Of(TokenKind::Identifier));

const NUMBER: Symbol = Symbol::Sign(Word::Of(TokenKind::Number));

const ZERO: Symbol = Symbol::Sign(Word::Zero);

const A_DECL: Symbol = Symbol::Inner(Production::Decl);

const A_IDS: Symbol = Symbol::Inner(Production::Ids);

const A_RULE: Symbol = Symbol::Inner(Production::Rule);

const A_PAR: Symbol = Symbol::Inner(Production::Par);

const A_SUM: Symbol = Symbol::Inner(Production::Sum);

const A_PRE: Symbol = Symbol::Inner(Production::Pre);

const A_PATTERN: Symbol = Symbol::Inner(Production::Pattern);

const A_TERM: Symbol = Symbol::Inner(Production::Term);

const MORE_DECLARATIONS: Symbol = Symbol::More(More::Declarations);

const PERHAPS_PRIVATE: Symbol = Symbol::More(More::Private);

const MORE_FUNCTIONS: Symbol = Symbol::More(More::Functions);

const MORE_RULES: Symbol = Symbol::More(More::Rules);

const PERHAPS_PARAMETERS: Symbol = Symbol::More(More::Parameters);

const MORE_NAMES: Symbol = Symbol::More(More::Names);

const MORE_TERMS: Symbol = Symbol::More(More::Terms);

const MORE_PARALLEL: Symbol = Symbol::More(More::Parallel);

const MORE_CHOICE: Symbol = Symbol::More(More::Choice);

const PERHAPS_THEN: Symbol = Symbol::More(More::Then);

const PERHAPS_ELSE: Symbol = Symbol::More(More::Else);

const PERHAPS_ARGUMENTS: Symbol = Symbol::More(More::Arguments);

const MORE_PATTERNS: Symbol = Symbol::More(More::Patterns);

const PERHAPS_BRACKETS: Symbol = Symbol::More(More::Brackets);

const PERHAPS_TERMS: Symbol = Symbol::More(More::Filling);

/// The alternatives of each production.
pub(crate) fn alternatives_of(production: Production) -> &'static [&'static [Symbol]]
    ensures { map (λ a. a.now) result.now ≡ alternatives production }
{
    match production {
        Production::Decl => &[
            &[FREE, A_IDS, PERHAPS_PRIVATE, DOT],
            &[CONST, A_IDS, PERHAPS_PRIVATE, DOT],
            &[FUN, IDENTIFIER, SLASH, NUMBER, MORE_FUNCTIONS, DOT],
            &[REDUC, A_RULE, MORE_RULES, DOT],
            &[LET, IDENTIFIER, PERHAPS_PARAMETERS, EQUALS, A_PAR, DOT],
        ],
        Production::Ids => &[&[IDENTIFIER, MORE_NAMES]],
        Production::Rule => &[&[IDENTIFIER, OPEN, A_TERM, MORE_TERMS, CLOSE, ARROW, A_TERM]],
        Production::Query => &[&[QUERY, TRACE_EQUIV, OPEN, A_PAR, COMMA, A_PAR, CLOSE, DOT]],
        Production::Par => &[&[A_SUM, MORE_PARALLEL]],
        Production::Sum => &[&[A_PRE, MORE_CHOICE]],
        Production::Pre => &[
            &[ZERO],
            &[OPEN, A_PAR, CLOSE],
            &[BANG, CARET, NUMBER, A_PRE],
            &[NEW, IDENTIFIER, SEMICOLON, A_PRE],
            &[IN, OPEN, IDENTIFIER, COMMA, A_PATTERN, CLOSE, PERHAPS_THEN],
            &[OUT, OPEN, IDENTIFIER, COMMA, A_TERM, CLOSE, PERHAPS_THEN],
            &[IF, A_TERM, EQUALS, A_TERM, THEN, A_PRE, PERHAPS_ELSE],
            &[LET, A_PATTERN, EQUALS, A_TERM, IN, A_PRE, PERHAPS_ELSE],
            &[IDENTIFIER, PERHAPS_ARGUMENTS],
        ],
        Production::Pattern => &[
            &[IDENTIFIER],
            &[EQUALS, A_TERM],
            &[OPEN, A_PATTERN, COMMA, A_PATTERN, MORE_PATTERNS, CLOSE],
        ],
        Production::Term => &[
            &[IDENTIFIER, PERHAPS_BRACKETS],
            &[OPEN, A_TERM, MORE_TERMS, CLOSE],
        ],
    }
}

/// What an option stands for, where it is not left out.
pub(crate) fn continuation_of(more: More) -> &'static [Symbol]
    ensures { result.now ≡ continuation more }
{
    match more {
        More::Declarations => &[A_DECL, MORE_DECLARATIONS],
        More::Private => &[OPEN_BRACKET, PRIVATE, CLOSE_BRACKET],
        More::Functions => &[COMMA, IDENTIFIER, SLASH, NUMBER, MORE_FUNCTIONS],
        More::Rules => &[SEMICOLON, A_RULE, MORE_RULES],
        More::Parameters => &[OPEN, A_IDS, CLOSE],
        More::Names => &[COMMA, IDENTIFIER, MORE_NAMES],
        More::Terms => &[COMMA, A_TERM, MORE_TERMS],
        More::Parallel => &[BAR, A_SUM, MORE_PARALLEL],
        More::Choice => &[PLUS, A_PRE, MORE_CHOICE],
        More::Then => &[SEMICOLON, A_PRE],
        More::Else => &[ELSE, A_PRE],
        More::Arguments => &[OPEN, A_TERM, MORE_TERMS, CLOSE],
        More::Patterns => &[COMMA, A_PATTERN, MORE_PATTERNS],
        More::Brackets => &[OPEN, PERHAPS_TERMS, CLOSE],
        More::Filling => &[A_TERM, MORE_TERMS],
    }
}

/// The words that begin a production.
fn firsts_of(production: Production) -> &'static [Word]
    ensures { result.now ≡ firsts production }
{
    match production {
        Production::Decl => &[
            Word::Of(TokenKind::Free),
            Word::Of(TokenKind::Const),
            Word::Of(TokenKind::Fun),
            Word::Of(TokenKind::Reduc),
            Word::Of(TokenKind::Let),
        ],
        Production::Ids | Production::Rule => &[Word::Of(TokenKind::Identifier)],
        Production::Query => &[Word::Of(TokenKind::Query)],
        Production::Par | Production::Sum | Production::Pre => &[
            Word::Zero,
            Word::Of(TokenKind::OpenParenthesis),
            Word::Of(TokenKind::Bang),
            Word::Of(TokenKind::New),
            Word::Of(TokenKind::In),
            Word::Of(TokenKind::Out),
            Word::Of(TokenKind::If),
            Word::Of(TokenKind::Let),
            Word::Of(TokenKind::Identifier),
        ],
        Production::Pattern => &[
            Word::Of(TokenKind::Identifier),
            Word::Of(TokenKind::Equals),
            Word::Of(TokenKind::OpenParenthesis),
        ],
        Production::Term => &[
            Word::Of(TokenKind::Identifier),
            Word::Of(TokenKind::OpenParenthesis),
        ],
    }
}

pub(crate) fn is_same_word(a: Word, b: Word) -> bool
    ensures { result ≡ is_same a b }
{
    match (a, b) {
        (Word::Of(kind), Word::Of(other)) => kind == other,
        (Word::Of(_), Word::Zero) => false,
        (Word::Zero, Word::Of(_)) => false,
        (Word::Zero, Word::Zero) => true,
    }
}

/// Whether this word may stand where the grammar has that sign.
pub(crate) fn is_taken(sign: Word, next: Word) -> bool
    ensures { result ≡ takes sign next }
{
    is_same_word(sign, next)
        || (is_same_word(sign, Word::Of(TokenKind::Number)) && is_same_word(Word::Zero, next))
}

fn is_among(words: &[Word], next: Word) -> bool
    ensures { result ≡ list_any (λ word. is_same word next) words.now }
{
    words.iter().any(|word| is_same_word(*word, next))
}

fn is_begun(symbol: Symbol, next: Word) -> bool
    ensures { result ≡ begins symbol next }
{
    match symbol {
        Symbol::Sign(word) => is_taken(word, next),
        Symbol::Inner(production) => is_among(firsts_of(production), next),
        Symbol::More(_) | Symbol::Close(_) => false,
    }
}

/// Whether the word begins these symbols.
pub(crate) fn are_begun(symbols: &[Symbol], next: Word) -> bool
    ensures { result ≡ begins_all symbols.now next }
{
    match symbols {
        [] => false,
        [first, ..] => is_begun(*first, next),
    }
}

/// The first alternative that begins with this word.
pub(crate) fn chosen_of(
    alternatives: &'static [&'static [Symbol]],
    next: Word,
) -> Option<&'static [Symbol]>
    ensures { MatchOption result (chosen (map (λ a. a.now) alternatives.now) next ≡ None) (λ items. chosen (map (λ a. a.now) alternatives.now) next ≡ Some items.now) }
{
    match alternatives {
        [] => None,
        [items, others @ ..] => {
            if are_begun(items, next) {
                Some(items)
            } else {
                chosen_of(others, next)
            }
        }
    }
}

/// 1 for the productions whose nesting is counted, else 0.
pub(crate) fn own_depth_of(production: Production) -> usize
    ensures { result ≡ own_depth production }
{
    match production {
        Production::Pre | Production::Pattern | Production::Term => 1,
        Production::Decl
        | Production::Ids
        | Production::Rule
        | Production::Query
        | Production::Par
        | Production::Sum => 0,
    }
}
