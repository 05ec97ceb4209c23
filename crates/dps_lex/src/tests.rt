//! What a text holds, by hand from the rules.

use crate::FaultKind::*;
use crate::TokenKind::*;
use crate::{FaultKind, LexRefusal, Token, TokenKind, tokens, tokens_up_to_fault};
use std::alloc::Global;
use std::process::Abort;
use std::test::Fail;

/// A text, its tokens before the first fault as kind, start, end, line and column, and the fault.
#[derive(Drop)]
struct Case {
    text: &'static [u8],
    tokens: &'static [(TokenKind, u32, u32, u32, u32)],
    stop: Option<(FaultKind, u32, u32)>,
}

/// Both calls give what the case says.
fn check(rt: &impl Abort, alloc: Global, case: &Case) -> Result<(), Fail> {
    assert!(rt; case.text.len() <= 1000);
    let (front, stop) = tokens_up_to_fault(alloc, case.text)?;
    assert_eq!(rt; front.len(), case.tokens.len(), "in {:?}", case.text);
    for (token, wanted) in front.iter().zip(case.tokens) {
        let found = (token.kind, token.start, token.end, token.line, token.column);
        assert_eq!(rt; found, *wanted, "in {:?}", case.text);
    }
    let found = stop.map(|fault| (fault.kind, fault.line, fault.column));
    assert_eq!(rt; found, case.stop, "in {:?}", case.text);
    match tokens(alloc, case.text) {
        Ok(all) => {
            assert!(rt; stop.is_none());
            assert_eq!(rt; all.as_slice(), front.as_slice());
        }
        Err(LexRefusal::Fault(fault)) => assert_eq!(rt; stop, Some(fault)),
        Err(LexRefusal::Memory) => return Err(Fail::from("no memory")),
    }
    Ok(())
}

#[test]
fn small_texts(rt: HostRuntime) -> Result<(), Fail> {
    let cases = [
        Case {
            text: b"",
            tokens: &[],
            stop: None,
        },
        Case {
            text: b" \t\r\n",
            tokens: &[],
            stop: None,
        },
        Case {
            text: b"(**)",
            tokens: &[],
            stop: None,
        },
        Case {
            text: b"(***)",
            tokens: &[],
            stop: None,
        },
        Case {
            text: b"(* a (* b *) \x00\xff *)",
            tokens: &[],
            stop: None,
        },
        Case {
            text: b"(*(**)*)",
            tokens: &[],
            stop: None,
        },
        Case {
            text: b"(*((*)*)*)",
            tokens: &[],
            stop: None,
        },
        Case {
            text: b"(*)",
            tokens: &[],
            stop: Some((OpenComment, 1, 1)),
        },
        Case {
            text: b"(*(*)",
            tokens: &[],
            stop: Some((OpenComment, 1, 1)),
        },
        Case {
            text: b"(*(*)*)",
            tokens: &[],
            stop: Some((OpenComment, 1, 1)),
        },
        Case {
            text: b"(*",
            tokens: &[],
            stop: Some((OpenComment, 1, 1)),
        },
        Case {
            text: b"\n (* (* *)",
            tokens: &[],
            stop: Some((OpenComment, 2, 2)),
        },
        Case {
            text: b"a(*",
            tokens: &[(Identifier, 0, 1, 1, 1)],
            stop: Some((OpenComment, 1, 2)),
        },
        Case {
            text: b"(* (( *) )",
            tokens: &[(CloseParenthesis, 9, 10, 1, 10)],
            stop: None,
        },
        Case {
            text: b"(*\n\n*)  )",
            tokens: &[(CloseParenthesis, 8, 9, 3, 5)],
            stop: None,
        },
        Case {
            text: b"((*a*)b",
            tokens: &[(OpenParenthesis, 0, 1, 1, 1), (Identifier, 6, 7, 1, 7)],
            stop: None,
        },
        Case {
            text: b"( *",
            tokens: &[(OpenParenthesis, 0, 1, 1, 1)],
            stop: Some((BadByte, 1, 3)),
        },
        Case {
            text: b"*)",
            tokens: &[],
            stop: Some((BadByte, 1, 1)),
        },
        Case {
            text: b"free const fun reduc let in out if then else new query trace_equiv private",
            tokens: &[
                (Free, 0, 4, 1, 1),
                (Const, 5, 10, 1, 6),
                (Fun, 11, 14, 1, 12),
                (Reduc, 15, 20, 1, 16),
                (Let, 21, 24, 1, 22),
                (In, 25, 27, 1, 26),
                (Out, 28, 31, 1, 29),
                (If, 32, 34, 1, 33),
                (Then, 35, 39, 1, 36),
                (Else, 40, 44, 1, 41),
                (New, 45, 48, 1, 46),
                (Query, 49, 54, 1, 50),
                (TraceEquiv, 55, 66, 1, 56),
                (Private, 67, 74, 1, 68),
            ],
            stop: None,
        },
        Case {
            text: b"()[],;./=|+!^->",
            tokens: &[
                (OpenParenthesis, 0, 1, 1, 1),
                (CloseParenthesis, 1, 2, 1, 2),
                (OpenBracket, 2, 3, 1, 3),
                (CloseBracket, 3, 4, 1, 4),
                (Comma, 4, 5, 1, 5),
                (Semicolon, 5, 6, 1, 6),
                (Dot, 6, 7, 1, 7),
                (Slash, 7, 8, 1, 8),
                (Equals, 8, 9, 1, 9),
                (Bar, 9, 10, 1, 10),
                (Plus, 10, 11, 1, 11),
                (Bang, 11, 12, 1, 12),
                (Caret, 12, 13, 1, 13),
                (Arrow, 13, 15, 1, 14),
            ],
            stop: None,
        },
        Case {
            text: b"in1 inn In a'b_1 x",
            tokens: &[
                (Identifier, 0, 3, 1, 1),
                (Identifier, 4, 7, 1, 5),
                (Identifier, 8, 10, 1, 9),
                (Identifier, 11, 16, 1, 12),
                (Identifier, 17, 18, 1, 18),
            ],
            stop: None,
        },
        Case {
            text: b"0if if0",
            tokens: &[
                (Number, 0, 1, 1, 1),
                (If, 1, 3, 1, 2),
                (Identifier, 4, 7, 1, 5),
            ],
            stop: None,
        },
        Case {
            text: b"0 7 10 1000000",
            tokens: &[
                (Number, 0, 1, 1, 1),
                (Number, 2, 3, 1, 3),
                (Number, 4, 6, 1, 5),
                (Number, 7, 14, 1, 8),
            ],
            stop: None,
        },
        Case {
            text: b"0x 12ab",
            tokens: &[
                (Number, 0, 1, 1, 1),
                (Identifier, 1, 2, 1, 2),
                (Number, 3, 5, 1, 4),
                (Identifier, 5, 7, 1, 6),
            ],
            stop: None,
        },
        Case {
            text: b"1000001",
            tokens: &[],
            stop: Some((LargeNumber, 1, 1)),
        },
        Case {
            text: b"99999999999999999999999",
            tokens: &[],
            stop: Some((LargeNumber, 1, 1)),
        },
        Case {
            text: b"x 00",
            tokens: &[(Identifier, 0, 1, 1, 1)],
            stop: Some((BadNumber, 1, 3)),
        },
        Case {
            text: b"01",
            tokens: &[],
            stop: Some((BadNumber, 1, 1)),
        },
        Case {
            text: b"09999999",
            tokens: &[],
            stop: Some((BadNumber, 1, 1)),
        },
        Case {
            text: b"a->b",
            tokens: &[
                (Identifier, 0, 1, 1, 1),
                (Arrow, 1, 3, 1, 2),
                (Identifier, 3, 4, 1, 4),
            ],
            stop: None,
        },
        Case {
            text: b"->-",
            tokens: &[(Arrow, 0, 2, 1, 1)],
            stop: Some((BadByte, 1, 3)),
        },
        Case {
            text: b"-",
            tokens: &[],
            stop: Some((BadByte, 1, 1)),
        },
        Case {
            text: b">",
            tokens: &[],
            stop: Some((BadByte, 1, 1)),
        },
        Case {
            text: b"a\0",
            tokens: &[(Identifier, 0, 1, 1, 1)],
            stop: Some((BadByte, 1, 2)),
        },
        Case {
            text: b"_a",
            tokens: &[],
            stop: Some((BadByte, 1, 1)),
        },
        Case {
            text: b"'a",
            tokens: &[],
            stop: Some((BadByte, 1, 1)),
        },
        Case {
            text: b"\xc3\xa9",
            tokens: &[],
            stop: Some((BadByte, 1, 1)),
        },
        Case {
            text: b"abcdefghijklmnopqrstuvwxyzABCDEFGHIJKLMNOPQRSTUVWXYZ0123456789_'",
            tokens: &[(Identifier, 0, 64, 1, 1)],
            stop: None,
        },
        Case {
            text: b"abcdefghijklmnopqrstuvwxyzABCDEFGHIJKLMNOPQRSTUVWXYZ0123456789_'x",
            tokens: &[],
            stop: Some((LongName, 1, 1)),
        },
        Case {
            text: b"private0000000000000000000000000000000000000000000000000000000000",
            tokens: &[],
            stop: Some((LongName, 1, 1)),
        },
        Case {
            text: b"\r\n\tx",
            tokens: &[(Identifier, 3, 4, 2, 2)],
            stop: None,
        },
        Case {
            text: b"out(c,\n  x).",
            tokens: &[
                (Out, 0, 3, 1, 1),
                (OpenParenthesis, 3, 4, 1, 4),
                (Identifier, 4, 5, 1, 5),
                (Comma, 5, 6, 1, 6),
                (Identifier, 9, 10, 2, 3),
                (CloseParenthesis, 10, 11, 2, 4),
                (Dot, 11, 12, 2, 5),
            ],
            stop: None,
        },
    ];
    for case in &cases {
        check(&rt, rt.alloc(), case)?;
    }
    Ok(())
}

/// The longest text, of lines that hold a keyword each.
#[test]
fn large_text(rt: HostRuntime) -> Result<(), Fail> {
    let mut text = Vec::new(rt.alloc());
    for _ in 0..349_525 {
        text.extend_from_slice(b"in\n")?;
    }
    assert!(rt; text.len() <= 1_048_576);
    let (found, stop) = tokens_up_to_fault(rt.alloc(), text.as_slice())?;
    assert_eq!(rt; stop, None);
    assert_eq!(rt; found.len(), 349_525);
    let last = found.last().ok_or("no token")?;
    assert_eq!(rt;
        *last,
        Token {
            kind: In,
            start: 1_048_572,
            end: 1_048_574,
            line: 349_525,
            column: 1
        }
    );
    Ok(())
}

/// The deepest nest of comments that fits a text.
#[test]
fn deep_comments(rt: HostRuntime) -> Result<(), Fail> {
    let mut text = Vec::new(rt.alloc());
    for _ in 0..262_144 {
        text.extend_from_slice(b"(*")?;
    }
    for _ in 0..262_144 {
        text.extend_from_slice(b"*)")?;
    }
    assert!(rt; text.len() <= 1_048_576);
    let (found, stop) = tokens_up_to_fault(rt.alloc(), text.as_slice())?;
    assert_eq!(rt; found.len(), 0);
    assert_eq!(rt; stop, None);
    Ok(())
}

#[test]
fn printed_words(rt: HostRuntime) {
    let printed = [
        BadByte,
        OpenComment,
        LongName,
        BadNumber,
        LargeNumber,
        UnexpectedToken,
        UnexpectedEnd,
        TooDeep,
    ]
    .map(|kind| kind.words());
    let wanted = [
        "bad byte",
        "open comment",
        "long name",
        "bad number",
        "large number",
        "unexpected token",
        "unexpected end",
        "too deep",
    ];
    assert_eq!(rt; printed, wanted);
}
