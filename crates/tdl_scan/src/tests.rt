use crate::TokenKind::{Id, Number, Sign};
use crate::{ScanError, SourcePlace, Token, TokenKind, end_place, scan};
use std::process::Abort;
use std::test::Fail;
use tdl_base::limits::SOURCE_BYTES;

/// What a scan answers: each token's kind, line, column, first byte and byte after it, or the place
/// of the fault.
#[derive(Clone, Copy)]
enum Answer {
    Tokens(&'static [(TokenKind, u32, u32, u32, u32)]),
    Fault(u32, u32),
}

use Answer::{Fault, Tokens};

/// Sources that have tokens, blanks and comments.
const SOURCES: [(&[u8], Answer); 25] = [
    (b"", Tokens(&[])),
    (b" \t\r\n", Tokens(&[])),
    (
        b"module P{",
        Tokens(&[(Id, 1, 1, 0, 6), (Id, 1, 8, 7, 8), (Sign, 1, 9, 8, 9)]),
    ),
    (b"12ab", Tokens(&[(Number, 1, 1, 0, 2), (Id, 1, 3, 2, 4)])),
    (b"ab12_", Tokens(&[(Id, 1, 1, 0, 5)])),
    (b"a\rb", Tokens(&[(Id, 1, 1, 0, 1), (Id, 1, 3, 2, 3)])),
    (b"\r\n;", Tokens(&[(Sign, 2, 1, 2, 3)])),
    (
        b"1\n\n 2",
        Tokens(&[(Number, 1, 1, 0, 1), (Number, 3, 2, 4, 5)]),
    ),
    (b"\ta\t\tb", Tokens(&[(Id, 1, 2, 1, 2), (Id, 1, 5, 4, 5)])),
    (b"// x", Tokens(&[])),
    (b"a//", Tokens(&[(Id, 1, 1, 0, 1)])),
    (b"a// x\n", Tokens(&[(Id, 1, 1, 0, 1)])),
    (b"// x\ny", Tokens(&[(Id, 2, 1, 5, 6)])),
    (b"// x\ry", Tokens(&[])),
    (b"//\x00\xff\t$//\n;", Tokens(&[(Sign, 2, 1, 9, 10)])),
    (b"/ /", Tokens(&[(Sign, 1, 1, 0, 1), (Sign, 1, 3, 2, 3)])),
    (b"/ ///", Tokens(&[(Sign, 1, 1, 0, 1)])),
    (b"/*", Tokens(&[(Sign, 1, 1, 0, 1), (Sign, 1, 2, 1, 2)])),
    (b"<=", Tokens(&[(Sign, 1, 1, 0, 2)])),
    (b"< =", Tokens(&[(Sign, 1, 1, 0, 1), (Sign, 1, 3, 2, 3)])),
    (b"===", Tokens(&[(Sign, 1, 1, 0, 2), (Sign, 1, 3, 2, 3)])),
    (b"= =", Tokens(&[(Sign, 1, 1, 0, 1), (Sign, 1, 3, 2, 3)])),
    (
        b":=-1",
        Tokens(&[(Sign, 1, 1, 0, 2), (Sign, 1, 3, 2, 3), (Number, 1, 4, 3, 4)]),
    ),
    (b"!!=", Tokens(&[(Sign, 1, 1, 0, 1), (Sign, 1, 2, 1, 3)])),
    (b"&&||", Tokens(&[(Sign, 1, 1, 0, 2), (Sign, 1, 3, 2, 4)])),
];

/// Sources with long words, and sources with a fault.
const FAULTS: [(&[u8], Answer); 14] = [
    (
        b"abcdefghijabcdefghijabcdefghijabcdefghijabcdefghijabcdefghijabcd",
        Tokens(&[(Id, 1, 1, 0, 64)]),
    ),
    (
        b"module abcdefghijabcdefghijabcdefghijabcdefghijabcdefghijabcdefghijabcde",
        Fault(1, 8),
    ),
    (b"module P { $", Fault(1, 12)),
    (b"\x00", Fault(1, 1)),
    (b"a\x7f", Fault(1, 2)),
    (b"a\n\x80", Fault(2, 1)),
    (b"a\n// b\n  \xff", Fault(3, 3)),
    (b"\r\r$", Fault(1, 3)),
    (b"&", Fault(1, 1)),
    (b"a | b", Fault(1, 3)),
    (b"a: = b", Fault(1, 2)),
    (b"&&&", Fault(1, 3)),
    (b"a _b", Fault(1, 3)),
    (b"$ // $\n$", Fault(1, 1)),
];

fn wanted(token: &(TokenKind, u32, u32, u32, u32)) -> Token {
    let (kind, line, col, from, to) = *token;
    Token {
        kind,
        line,
        col,
        from,
        to,
    }
}

fn check(rt: &(impl Abort + AllocGlobal), table: &[(&[u8], Answer)]) -> Result<(), Fail> {
    for (source, answer) in table {
        assert!(rt; source.len() <= SOURCE_BYTES);
        match (scan(rt.alloc(), source), *answer) {
            (Ok(found), Tokens(tokens)) => {
                assert_eq!(rt; found.len(), tokens.len(), "{source:?}");
                for (token, all) in found.iter().zip(tokens.iter()) {
                    assert_eq!(rt; *token, wanted(all), "{source:?}");
                }
            }
            (Err(error), Fault(line, col)) => {
                assert_eq!(rt; error, ScanError::BadToken { line, col }, "{source:?}");
            }
            (_, _) => assert!(rt; false, "{source:?}"),
        }
    }
    Ok(())
}

#[test]
fn scans_sources(rt: HostRuntime) -> Result<(), Fail> {
    check(&rt, &SOURCES)
}

#[test]
fn tells_the_place_of_a_fault(rt: HostRuntime) -> Result<(), Fail> {
    check(&rt, &FAULTS)
}

#[test]
fn tells_the_end_of_a_source(rt: HostRuntime) -> Result<(), Fail> {
    let ends: [(&[u8], u32, u32); 5] = [
        (b"", 1, 1),
        (b"a //", 1, 5),
        (b"module P {\n", 2, 1),
        (b"a\n\n bc", 3, 4),
        (b"a\r", 1, 3),
    ];
    for (source, line, col) in ends {
        assert_eq!(rt; end_place(source), SourcePlace { line, col }, "{source:?}");
    }
    Ok(())
}
