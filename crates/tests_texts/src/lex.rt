// Tables of texts with their tokens or faults, worked out by hand from the rules.
use cq_read::lex::{Kind, next_token, quoted_text};
use std::alloc::{AllocError, Global};
use std::fmt::Write;
use std::test::Fail;

/// A text, and what its tokens begin with: each by a letter for its kind and its ends, up to the end of the text or the first fault.
type Row = (&'static [u8], &'static str);

/// Layout and comments are passed over.
static LAYOUT: [Row; 34] = [
    (b"", "z0-0 "),
    (b" ", "z1-1 "),
    (b"\t\n\r\x0b\x0c a", "n6-7 "),
    (b"% c\na", "n4-5 "),
    (b"% c", "z3-3 "),
    (b"%", "z1-1 "),
    (b"/* c */a", "n7-8 "),
    (b"/**/a", "n4-5 "),
    (b"/***/a", "n5-6 "),
    (b"/*/ a */b", "n8-9 "),
    (b"/* a", "the comment is still open at 4"),
    (b"/*", "the comment is still open at 2"),
    (b"/*/", "the comment is still open at 3"),
    (b"/* * /", "the comment is still open at 6"),
    (b"a/*b*/", "n0-1 "),
    (b"a/*b*/", "n0-1 z6-6 "),
    (b"=/*c*/", "n0-3 "),
    (b"./*c*/", "n0-3 "),
    (b"1./*c*/", "d0-1 n1-4 "),
    (b"/* \xff */a", "n7-8 "),
    (b"% \xff\na", "n4-5 "),
    (b"\xa0", "no token can have the byte at 0"),
    (b"\xc2\xa0", "no token can have the byte at 0"),
    (b"\xef\xbb\xbfa", "no token can have the byte at 0"),
    (b"`", "no token can have the byte at 0"),
    (b"\x00", "no token can have the byte at 0"),
    (b"\x80", "no token can have the byte at 0"),
    (b"\xc0\x80", "no token can have the byte at 0"),
    (b"\xed\xa0\x80", "no token can have the byte at 0"),
    (b"\xe2\x82", "no token can have the byte at 0"),
    (b"\x7f", "no token can have the byte at 0"),
    (b"/ *a*/", "n0-1 "),
    (b" % a\n /* b */ \n c", "n16-17 "),
    (b"f (a)", "n0-1 p2-3 "),
];

/// Names are as long as they can be.
static NAMES: [Row; 49] = [
    (b"foo", "n0-3 "),
    (b"fooBar_1 x", "n0-8 "),
    (b"a(", "n0-1 "),
    (b"\xc3\xa9", "n0-2 "),
    (b"\xc3\xa9a1_", "n0-5 "),
    (b"\xc3\x89", "n0-2 "),
    (b"a\xc3\xa9(", "n0-3 "),
    (b"\xe6\x97\xa5\xe6\x9c\xac", "n0-6 "),
    (b"a\xcc\x81", "n0-3 "),
    (b"a\xc2\xb7b", "n0-4 "),
    (b"a\xff", "n0-1 "),
    (b"a\xc3", "n0-1 "),
    (b"_", "v0-1 "),
    (b"_a", "v0-2 "),
    (b"X", "v0-1 "),
    (b"X\xc3\xa9", "v0-3 "),
    (b"_1 ", "v0-2 "),
    (b"ABC.d", "v0-3 "),
    (b"!", "n0-1 "),
    (b"!!", "n0-1 "),
    (b";", "n0-1 "),
    (b";;", "n0-1 "),
    (b"a1", "n0-2 "),
    (b"\xd9\xa3", "no token can have the byte at 0"),
    (b"a\xd9\xa3", "n0-3 "),
    (b"=<", "n0-2 "),
    (b"=:=", "n0-3 "),
    (b"=-1", "n0-2 "),
    (b"{X=-1}", "p0-1 v1-2 n2-4 "),
    (b":-", "n0-2 "),
    (b"-->", "n0-3 "),
    (b"=..", "n0-3 "),
    (b"=..\n", "n0-3 "),
    (b"@=<a", "n0-3 "),
    (b"\\+", "n0-2 "),
    (b"/\\", "n0-2 "),
    (b"#&$", "n0-3 "),
    (b"~^?", "n0-3 "),
    (b"-", "n0-1 "),
    (b"--1", "n0-2 "),
    (b"-1", "n0-1 "),
    (b"X*-2", "v0-1 n1-3 "),
    (b"}.?-", "p0-1 n1-4 "),
    (b"+(", "n0-1 "),
    (b"=!", "n0-1 "),
    (b"=;", "n0-1 "),
    (b"=,", "n0-1 "),
    (b"**", "n0-2 "),
    (b">=", "n0-2 "),
];

/// A full stop ends a clause, and punctuation stands alone.
static STOPS: [Row; 27] = [
    (b".", "e0-1 "),
    (b". ", "e0-1 "),
    (b".\n", "e0-1 "),
    (b".%c", "e0-1 "),
    (b".\t", "e0-1 "),
    (b".\x0c", "e0-1 "),
    (b".a", "n0-1 "),
    (b"..", "n0-2 "),
    (b".5", "n0-1 "),
    (b".(", "n0-1 "),
    (b"x.", "n0-1 e1-2 "),
    (b"x.%c", "n0-1 e1-2 "),
    (b"x./*c*/", "n0-1 n1-4 "),
    (b".\xc2\xa0", "n0-1 "),
    (b"'.'", "q0-3 "),
    (b".\"a\"", "n0-1 "),
    (b"(", "p0-1 "),
    (b")", "p0-1 "),
    (b"[", "p0-1 "),
    (b"]", "p0-1 "),
    (b"{", "p0-1 "),
    (b"}", "p0-1 "),
    (b",", "p0-1 "),
    (b"|", "p0-1 "),
    (b"[]", "p0-1 "),
    (b"||", "p0-1 "),
    (b"( ", "p0-1 z2-2 "),
];

/// Numerals end where the rest does not fit.
static NUMERALS: [Row; 46] = [
    (b"0", "d0-1 "),
    (b"007", "d0-3 "),
    (b"123abc", "d0-3 "),
    (b"1r2", "d0-3 "),
    (b"2r4", "d0-3 "),
    (b"1r", "d0-1 "),
    (b"1rx", "d0-1 "),
    (b"1r 2", "d0-1 "),
    (b"1 r2", "d0-1 "),
    (b"0r5", "d0-3 "),
    (
        b"1r0",
        "the numeral at 0 is too large, or is divided by zero",
    ),
    (
        b"1r00",
        "the numeral at 0 is too large, or is divided by zero",
    ),
    (
        b"0r0",
        "the numeral at 0 is too large, or is divided by zero",
    ),
    (b"170141183460469231731687303715884105727", "d0-39 "),
    (
        b"170141183460469231731687303715884105728",
        "the numeral at 0 is too large, or is divided by zero",
    ),
    (b"1r170141183460469231731687303715884105727", "d0-41 "),
    (
        b"1r170141183460469231731687303715884105728",
        "the numeral at 0 is too large, or is divided by zero",
    ),
    (b"000170141183460469231731687303715884105727", "d0-42 "),
    (
        b"170141183460469231731687303715884105728r2",
        "the numeral at 0 is too large, or is divided by zero",
    ),
    (
        b"170141183460469231731687303715884105728.5",
        "the numeral at 0 is too large, or is divided by zero",
    ),
    (
        b"1r0.5",
        "the numeral at 0 is too large, or is divided by zero",
    ),
    (b"1.5", "no token can have the byte at 1"),
    (b"a 1.5", "n0-1 no token can have the byte at 3"),
    (
        b"?- X = 1.5.",
        "n0-2 v3-4 n5-6 no token can have the byte at 8",
    ),
    (b"1r2.5", "no token can have the byte at 3"),
    (b"0x1.5", "no token can have the byte at 3"),
    (b"0'a.5", "no token can have the byte at 3"),
    (b"1.", "d0-1 "),
    (b"1.e", "d0-1 "),
    (b"1..2", "d0-1 "),
    (b"1.\n", "d0-1 "),
    (b"0x1F", "d0-4 "),
    (b"0xfFg", "d0-4 "),
    (b"0x", "d0-1 "),
    (b"0xg", "d0-1 "),
    (b"0o17", "d0-4 "),
    (b"0o18", "d0-3 "),
    (b"0o8", "d0-1 "),
    (b"0b101", "d0-5 "),
    (b"0b2", "d0-1 "),
    (b"0b12", "d0-3 "),
    (
        b"0x80000000000000000000000000000000",
        "the numeral at 0 is too large, or is divided by zero",
    ),
    (b"0x7fffffffffffffffffffffffffffffff", "d0-34 "),
    (b"00x1", "d0-2 "),
    (b"1x2", "d0-1 "),
    (b"0X1", "d0-1 "),
];

/// Characters are numerals behind their marks.
static CHARACTERS: [Row; 24] = [
    (b"0'a", "d0-3 "),
    (b"0' ", "d0-3 "),
    (b"0'''", "d0-4 "),
    (b"0''", "d0-1 "),
    (b"0''x", "d0-1 "),
    (b"0'\n", "d0-1 "),
    (b"0'", "d0-1 "),
    (b"0'\\n", "d0-4 "),
    (b"0'\\x41\\", "d0-7 "),
    (b"0'\\q", "d0-1 "),
    (b"0'\\\n", "d0-1 "),
    (b"0'\xc3\xa9", "d0-4 "),
    (b"0'\xff", "d0-1 "),
    (b"0'A1", "d0-3 "),
    (b"0'\t", "d0-3 "),
    (b"0'\"", "d0-3 "),
    (b"0'\\'", "d0-4 "),
    (b"00'a", "d0-2 "),
    (b"0'\\x110000\\", "d0-1 "),
    (b"0'\\101\\", "d0-7 "),
    (b"0'\xf0\x9f\x98\x80", "d0-6 "),
    (b"1'a", "d0-1 "),
    (b"0'\n", "d0-1 the quotes are still open at 2"),
    (b"0'\\q", "d0-1 no token can have the byte at 3"),
];

/// Quotes close, or fault where they stand open.
static QUOTES: [Row; 20] = [
    (b"''", "q0-2 "),
    (b"'a'", "q0-3 "),
    (b"'a''b'", "q0-6 "),
    (b"''''", "q0-4 "),
    (b"'''", "the quotes are still open at 3"),
    (b"'a\"b'", "q0-5 "),
    (b"\"a\"\"b\"", "c0-6 "),
    (b"\"\"", "c0-2 "),
    (b"\"a'b\"", "c0-5 "),
    (b"'a' 'b'", "q0-3 "),
    (b"'a", "the quotes are still open at 2"),
    (b"'a\nb'", "the quotes are still open at 2"),
    (b"'", "the quotes are still open at 1"),
    (b"\"abc", "the quotes are still open at 4"),
    (b"'don''t'", "q0-8 "),
    (b"'a\tb'", "q0-5 "),
    (b"'a\x00b'", "q0-5 "),
    (b"'\xc3\xa9'", "q0-4 "),
    (b"'\xff'", "no token can have the byte at 1"),
    (b"'a\xc3", "no token can have the byte at 2"),
];

/// Escapes are those listed.
static ESCAPES: [Row; 32] = [
    (b"'\\n\\t\\\\'", "q0-8 "),
    (b"'\\a\\b\\f\\r\\v'", "q0-12 "),
    (b"'\\'\\\"\\`'", "q0-8 "),
    (b"'\\q'", "no token can have the byte at 2"),
    (b"'\\e'", "no token can have the byte at 2"),
    (b"'\\z", "no token can have the byte at 2"),
    (b"\"\\q\"", "no token can have the byte at 2"),
    (b"'\\", "the quotes are still open at 2"),
    (b"'\\x41\\'", "q0-7 "),
    (b"'\\x41'", "no token can have the byte at 2"),
    (b"'\\x41", "the quotes are still open at 5"),
    (b"'\\x", "the quotes are still open at 3"),
    (b"'\\x\\'", "no token can have the byte at 2"),
    (b"'\\xg\\'", "no token can have the byte at 2"),
    (b"'\\x110000\\'", "no token can have the byte at 1"),
    (b"'\\x10FFFF\\'", "q0-11 "),
    (b"'\\xD800\\'", "no token can have the byte at 1"),
    (b"'\\xDFFF\\'", "no token can have the byte at 1"),
    (b"'\\xE000\\'", "q0-9 "),
    (b"'\\101\\'", "q0-7 "),
    (b"'\\0\\'", "q0-5 "),
    (b"'\\12'", "no token can have the byte at 2"),
    (b"'\\9\\'", "no token can have the byte at 2"),
    (b"'\\18\\'", "no token can have the byte at 2"),
    (b"'\\12", "the quotes are still open at 4"),
    (b"'a\\\nb'", "q0-6 "),
    (b"'\\\r\n'", "no token can have the byte at 2"),
    (b"'\\x41\n", "no token can have the byte at 2"),
    (
        b"'\\xfffffffffffffffffffffffffffffffffffffff\\'",
        "no token can have the byte at 1",
    ),
    (b"'\\4177777\\'", "q0-11 "),
    (b"'\\4200000\\'", "no token can have the byte at 1"),
    (b"'\\x41\\", "the quotes are still open at 6"),
];

/// Terms as they are read and as they are written, with all of their tokens.
static LISTINGS: [Row; 85] = [
    // Terms as they are read.
    (b"-(1) .", "n0-1 p1-2 d2-3 p3-4 e5-6 z6-6 "),
    (b"- 1 .", "n0-1 d2-3 e4-5 z5-5 "),
    (b"-1 .", "n0-1 d1-2 e3-4 z4-4 "),
    (b"-(1)^2 .", "n0-1 p1-2 d2-3 p3-4 n4-5 d5-6 e7-8 z8-8 "),
    (b"- (1)^2 .", "n0-1 p2-3 d3-4 p4-5 n5-6 d6-7 e8-9 z9-9 "),
    (b"-1^2 .", "n0-1 d1-2 n2-3 d3-4 e5-6 z6-6 "),
    (b"a- 1 .", "n0-1 n1-2 d3-4 e5-6 z6-6 "),
    (b"a -1 .", "n0-1 n2-3 d3-4 e5-6 z6-6 "),
    (b"1 - -1 .", "d0-1 n2-3 n4-5 d5-6 e7-8 z8-8 "),
    (b"- = a .", "n0-1 n2-3 n4-5 e6-7 z7-7 "),
    (
        b"- =(a,b) .",
        "n0-1 n2-3 p3-4 n4-5 p5-6 n6-7 p7-8 e9-10 z10-10 ",
    ),
    (b"- '=' .", "n0-1 q2-5 e6-7 z7-7 "),
    (b"- '=' a .", "n0-1 q2-5 n6-7 e8-9 z9-9 "),
    (b"\\+ - .", "n0-2 n3-4 e5-6 z6-6 "),
    (b"- - .", "n0-1 n2-3 e4-5 z5-5 "),
    (b"- + 1 .", "n0-1 n2-3 d4-5 e6-7 z7-7 "),
    (b"\\ -1 .", "n0-1 n2-3 d3-4 e5-6 z6-6 "),
    (b"X = \\+ a.", "v0-1 n2-3 n4-6 n7-8 e8-9 z9-9 "),
    (b"X = \\+ .", "v0-1 n2-3 n4-6 e7-8 z8-8 "),
    (b"f(:- a).", "n0-1 p1-2 n2-4 n5-6 p6-7 e7-8 z8-8 "),
    (b"f(:-) .", "n0-1 p1-2 n2-4 p4-5 e6-7 z7-7 "),
    (b"[-|T] .", "p0-1 n1-2 p2-3 v3-4 p4-5 e6-7 z7-7 "),
    (b"{-} .", "p0-1 n1-2 p2-3 e4-5 z5-5 "),
    (b"a ',' b .", "n0-1 q2-5 n6-7 e8-9 z9-9 "),
    (b"f(a|b).", "n0-1 p1-2 n2-3 p3-4 n4-5 p5-6 e6-7 z7-7 "),
    (b"a:-b:-c.", "n0-1 n1-3 n3-4 n4-6 n6-7 e7-8 z8-8 "),
    (b"a = b = c.", "n0-1 n2-3 n4-5 n6-7 n8-9 e9-10 z10-10 "),
    (
        b"X=(a,b) .",
        "v0-1 n1-2 p2-3 n3-4 p4-5 n5-6 p6-7 e8-9 z9-9 ",
    ),
    (b"dynamic = a .", "n0-7 n8-9 n10-11 e12-13 z13-13 "),
    (
        b":- dynamic p/1.",
        "n0-2 n3-10 n11-12 n12-13 d13-14 e14-15 z15-15 ",
    ),
    (b"?- a b.", "n0-2 n3-4 n5-6 e6-7 z7-7 "),
    (b"f().", "n0-1 p1-2 p2-3 e3-4 z4-4 "),
    (b"[a,].", "p0-1 n1-2 p2-3 p3-4 e4-5 z5-5 "),
    (
        b"?- X = 1.5.",
        "n0-2 v3-4 n5-6 no token can have the byte at 8",
    ),
    (b"?- {X=-1}.", "n0-2 p3-4 v4-5 n5-7 d7-8 p8-9 e9-10 z10-10 "),
    (b"a - 1 .", "n0-1 n2-3 d4-5 e6-7 z7-7 "),
    (b"a-1 .", "n0-1 n1-2 d2-3 e4-5 z5-5 "),
    (b"f(-1) .", "n0-1 p1-2 n2-3 d3-4 p4-5 e6-7 z7-7 "),
    (b"[-1] .", "p0-1 n1-2 d2-3 p3-4 e5-6 z6-6 "),
    (b"a - -1 .", "n0-1 n2-3 n4-5 d5-6 e7-8 z8-8 "),
    (b"- -1 .", "n0-1 n2-3 d3-4 e5-6 z6-6 "),
    (b"- - 1 .", "n0-1 n2-3 d4-5 e6-7 z7-7 "),
    (b"'-'1 .", "q0-3 d3-4 e5-6 z6-6 "),
    (b"--1 .", "n0-2 d2-3 e4-5 z5-5 "),
    (b"{X= -1} .", "p0-1 v1-2 n2-3 n4-5 d5-6 p6-7 e8-9 z9-9 "),
    (b"0''x'", "d0-1 q1-3 n3-4 the quotes are still open at 5"),
    (b"'a' 'b'", "q0-3 q4-7 z7-7 "),
    (
        b"-170141183460469231731687303715884105727 .",
        "n0-1 d1-40 e41-42 z42-42 ",
    ),
    (b"[ ] .", "p0-1 p2-3 e4-5 z5-5 "),
    (b"{} .", "p0-1 p1-2 e3-4 z4-4 "),
    (b"[](a) .", "p0-1 p1-2 p2-3 n3-4 p4-5 e6-7 z7-7 "),
    (b"'[]'(a) .", "q0-4 p4-5 n5-6 p6-7 e8-9 z9-9 "),
    (
        b"\"\" [97,98] .",
        "c0-2 p3-4 d4-6 p6-7 d7-9 p9-10 e11-12 z12-12 ",
    ),
    (b"f (a) .", "n0-1 p2-3 n3-4 p4-5 e6-7 z7-7 "),
    (b"a b 'x", "n0-1 n2-3 the quotes are still open at 6"),
    (b"a /* b", "n0-1 the comment is still open at 6"),
    (
        b"X=1r0",
        "v0-1 n1-2 the numeral at 2 is too large, or is divided by zero",
    ),
    // Terms as they are written.
    (b"- 1^2", "n0-1 d2-3 n3-4 d4-5 z5-5 "),
    (b"-(-1)", "n0-1 p1-2 n2-3 d3-4 p4-5 z5-5 "),
    (b"-(1r2)", "n0-1 p1-2 d2-5 p5-6 z6-6 "),
    (b"- -(1)", "n0-1 n2-3 p3-4 d4-5 p5-6 z6-6 "),
    (b"- (-)", "n0-1 p2-3 n3-4 p4-5 z5-5 "),
    (b"(-)=a", "p0-1 n1-2 p2-3 n3-4 n4-5 z5-5 "),
    (b"1-(-1)", "d0-1 n1-2 p2-3 n3-4 d4-5 p5-6 z6-6 "),
    (b"(-1)^2", "p0-1 n1-2 d2-3 p3-4 n4-5 d5-6 z6-6 "),
    (b"(-(1))^2", "p0-1 n1-2 p2-3 d3-4 p4-5 p5-6 n6-7 d7-8 z8-8 "),
    (b"a= -b", "n0-1 n1-2 n3-4 n4-5 z5-5 "),
    (b"a=(-1)", "n0-1 n1-2 p2-3 n3-4 d4-5 p5-6 z6-6 "),
    (b"a=(\\+b)", "n0-1 n1-2 p2-3 n3-5 n5-6 p6-7 z7-7 "),
    (b"1-(2-3)", "d0-1 n1-2 p2-3 d3-4 n4-5 d5-6 p6-7 z7-7 "),
    (b"1-2-3", "d0-1 n1-2 d2-3 n3-4 d4-5 z5-5 "),
    (b"a:-b,c", "n0-1 n1-3 n3-4 p4-5 n5-6 z6-6 "),
    (b"(a:-b):-c", "p0-1 n1-2 n2-4 n4-5 p5-6 n6-8 n8-9 z9-9 "),
    (b"\\+ (a,b)", "n0-2 p3-4 n4-5 p5-6 n6-7 p7-8 z8-8 "),
    (b"f((a,b))", "n0-1 p1-2 p2-3 n3-4 p4-5 n5-6 p6-7 p7-8 z8-8 "),
    (b"[(a:-b)]", "p0-1 p1-2 n2-3 n3-5 n5-6 p6-7 p7-8 z8-8 "),
    (b"-a", "n0-1 n1-2 z2-2 "),
    (b"-_1", "n0-1 v1-3 z3-3 "),
    (b"dynamic a", "n0-7 n8-9 z9-9 "),
    (b"dynamic[a]", "n0-7 p7-8 n8-9 p9-10 z10-10 "),
    (b"(dynamic)/1", "p0-1 n1-8 p8-9 n9-10 d10-11 z11-11 "),
    (b"(',')/2", "p0-1 q1-4 p4-5 n5-6 d6-7 z7-7 "),
    (b"{a}", "p0-1 n1-2 p2-3 z3-3 "),
    (b"f(+,-)", "n0-1 p1-2 n2-3 p3-4 n4-5 p5-6 z6-6 "),
    (
        b"_1 is 7 mod (-2)",
        "v0-2 n3-5 d6-7 n8-11 p12-13 n13-14 d14-15 p15-16 z16-16 ",
    ),
];

/// The letter of a kind.
fn letter(kind: Kind) -> char {
    match kind {
        Kind::Name => 'n',
        Kind::Variable => 'v',
        Kind::Quoted => 'q',
        Kind::Codes => 'c',
        Kind::Numeral => 'd',
        Kind::Punctuation => 'p',
        Kind::End => 'e',
        Kind::Eof => 'z',
    }
}

/// The tokens of a text, up to its end or the first fault.
fn listing(alloc: Global, text: &[u8]) -> Result<String, Fail> {
    let mut out = String::new(alloc);
    let mut at = 0;
    for _ in 0..=text.len() {
        if at > text.len() {
            break;
        }
        match next_token(text, at) {
            Ok(token) => {
                let span = token.span;
                write!(out, "{}{}-{} ", letter(token.kind), span.start, span.end)?;
                if token.kind == Kind::Eof {
                    break;
                }
                at = span.end;
            }
            Err(fault) => {
                write!(out, "{fault}")?;
                break;
            }
        }
    }
    Ok(out)
}

/// The place of the first row whose tokens begin otherwise.
fn misread(alloc: Global, rows: &[Row]) -> Result<Option<usize>, Fail> {
    for (place, (text, want)) in rows.iter().enumerate() {
        if !listing(alloc, text)?
            .as_bytes()
            .starts_with(want.as_bytes())
        {
            return Ok(Some(place));
        }
    }
    Ok(None)
}

#[test]
fn tokens_are_as_long_as_they_can_be(rt: HostRuntime) -> Result<(), Fail> {
    assert_eq!(rt; misread(rt.alloc(), &LAYOUT)?, None);
    assert_eq!(rt; misread(rt.alloc(), &NAMES)?, None);
    assert_eq!(rt; misread(rt.alloc(), &STOPS)?, None);
    assert_eq!(rt; misread(rt.alloc(), &NUMERALS)?, None);
    Ok(())
}

#[test]
fn characters_and_quotes_end_where_they_close(rt: HostRuntime) -> Result<(), Fail> {
    assert_eq!(rt; misread(rt.alloc(), &CHARACTERS)?, None);
    assert_eq!(rt; misread(rt.alloc(), &QUOTES)?, None);
    assert_eq!(rt; misread(rt.alloc(), &ESCAPES)?, None);
    Ok(())
}

#[test]
fn terms_are_cut_into_tokens(rt: HostRuntime) -> Result<(), Fail> {
    assert_eq!(rt; misread(rt.alloc(), &LISTINGS)?, None);
    Ok(())
}

/// Texts with the number or the text that their first token means.
static VALUES: [Row; 52] = [
    (b"0", "number 0"),
    (b"007", "number 7"),
    (b"2r4", "number 1r2"),
    (b"0r5", "number 0"),
    (
        b"1r170141183460469231731687303715884105727",
        "number 1r170141183460469231731687303715884105727",
    ),
    (
        b"170141183460469231731687303715884105727",
        "number 170141183460469231731687303715884105727",
    ),
    (b"0x1F", "number 31"),
    (b"0xfFg", "number 255"),
    (b"0o17", "number 15"),
    (b"0b101", "number 5"),
    (b"0'a", "number 97"),
    (b"0' ", "number 32"),
    (b"0'''", "number 39"),
    (b"0'\\n", "number 10"),
    (b"0'\\x41\\", "number 65"),
    (b"0'\xf0\x9f\x98\x80", "number 128512"),
    (b"a", "none"),
    (b"1r0", "none"),
    (b"''", "text "),
    (b"'hello world'", "text hello world"),
    (b"\"\"", "text "),
    (b"\"ab\"", "text ab"),
    (b"'don''t'", "text don't"),
    (b"''''", "text '"),
    (b"\"a\"\"b\"", "text a\"b"),
    (b"'a\"b'", "text a\"b"),
    (b"\"it's\"", "text it's"),
    (b"'\\\\'", "text \\"),
    (b"'\\''", "text '"),
    (b"'\\\"'", "text \""),
    (b"'\\`'", "text `"),
    (b"'\\a'", "text \u{7}"),
    (b"'\\b'", "text \u{8}"),
    (b"'\\f'", "text \u{c}"),
    (b"'\\n'", "text \n"),
    (b"'\\r'", "text \u{d}"),
    (b"'\\t'", "text \t"),
    (b"'\\v'", "text \u{b}"),
    (b"'\\x41\\'", "text A"),
    (b"'\\xe9\\'", "text \u{e9}"),
    (b"'\\x1F600\\b'", "text \u{1f600}b"),
    (b"'\\x10FFFF\\'", "text \u{10ffff}"),
    (b"'\\101\\'", "text A"),
    (b"'\\0\\'", "text \u{0}"),
    (b"'\\4177777\\'", "text \u{10ffff}"),
    (b"'a\\\nb'", "text ab"),
    (b"\"a\\\n\"", "text a"),
    (b"'a\tb'", "text a\tb"),
    (b"'\xc3\xa9\xe6\x97\xa5'", "text \u{e9}\u{65e5}"),
    (b"'a' 'b'", "text a"),
    (b"'a", "none"),
    (b"1", "number 1"),
];

/// What the first token of a text means, if it is a numeral or in quotes.
fn value(alloc: Global, text: &[u8]) -> Result<String, AllocError> {
    let Ok(token) = next_token(text, 0) else {
        return String::from_str(alloc, "none");
    };
    match token.kind {
        Kind::Quoted => {
            let meant = quoted_text(alloc, text, token.span)?;
            format!(in alloc; "text {meant}")
        }
        Kind::Codes => {
            let meant = quoted_text(alloc, text, token.span)?;
            format!(in alloc; "text {meant}")
        }
        _ => match token.number {
            Some(number) => format!(in alloc; "number {number}"),
            None => String::from_str(alloc, "none"),
        },
    }
}

/// The place of the first row with another value.
fn mistaken(alloc: Global) -> Result<Option<usize>, AllocError> {
    for (place, (text, want)) in VALUES.iter().enumerate() {
        if value(alloc, text)?.as_str() != *want {
            return Ok(Some(place));
        }
    }
    Ok(None)
}

#[test]
fn numerals_and_quotes_have_their_values(rt: HostRuntime) -> Result<(), Fail> {
    assert_eq!(rt; mistaken(rt.alloc())?, None);
    Ok(())
}
