use line_text::{
    Lines, Words, is_name, keep_whole, push_decimal, push_marked, push_number, push_signed,
    push_signed_number, push_text, push_word, read_before, read_decimal, read_signed,
    split_at_mark,
};
use std::alloc::{AllocError, Global};
use std::test::Fail;

// A text, the limit, and the number that it is read as. As with the other tables, the function beside it
// promises nothing of it, so that the proofs of the tests do not read it.
const DECIMALS: &[(&str, u64, Option<u64>)] = &[
    ("0", 0, Some(0)),
    ("7", 9, Some(7)),
    ("12", 12, Some(12)),
    ("100", 4_294_967_295, Some(100)),
    ("18446744073709551615", u64::MAX, Some(u64::MAX)),
    ("1", 0, None),
    ("13", 12, None),
    ("120", 12, None),
    ("18446744073709551616", u64::MAX, None),
    ("99999999999999999999", u64::MAX, None),
    ("", 9, None),
    ("07", 9, None),
    ("00", 9, None),
    ("+7", 9, None),
    ("-7", 9, None),
    (" 7", 9, None),
    ("7 ", 9, None),
    ("7a", 99, None),
    ("/", 9, None),
    (":", 99, None),
];

fn decimals() -> &'static [(&'static str, u64, Option<u64>)] {
    DECIMALS
}

#[test]
fn reads_decimals_within_a_limit(rt: HostRuntime) {
    for (text, limit, wanted) in decimals() {
        assert_eq!(rt; read_decimal(text.as_bytes(), *limit), *wanted, "{text}");
    }
}

const SIGNED: &[(&str, Option<i64>)] = &[
    ("0", Some(0)),
    ("12", Some(12)),
    ("-1", Some(-1)),
    ("-10", Some(-10)),
    ("9223372036854775807", Some(i64::MAX)),
    ("-9223372036854775808", Some(i64::MIN)),
    ("9223372036854775808", None),
    ("-9223372036854775809", None),
    ("-0", None),
    ("-01", None),
    ("01", None),
    ("-", None),
    ("--1", None),
    ("+1", None),
    ("", None),
    ("1-", None),
];

fn signed() -> &'static [(&'static str, Option<i64>)] {
    SIGNED
}

#[test]
fn reads_decimals_with_a_sign(rt: HostRuntime) {
    for (text, wanted) in signed() {
        assert_eq!(rt; read_signed(text.as_bytes()), *wanted, "{text}");
    }
}

const NAMES: &[(&str, bool)] = &[
    ("A", true),
    ("c1.a-b_C", true),
    ("-", true),
    ("0", true),
    ("az.AZ-09_", true),
    ("a234567890b234567890c234567890d2", true),
    ("a234567890b234567890c234567890d23", false),
    ("", false),
    ("a b", false),
    ("a,1", false),
    ("a/b", false),
    ("a\n", false),
    ("é", false),
];

fn names() -> &'static [(&'static str, bool)] {
    NAMES
}

#[test]
fn tells_names_from_other_texts(rt: HostRuntime) {
    for (text, wanted) in names() {
        assert_eq!(rt; is_name(text.as_bytes()), *wanted, "{text}");
    }
}

// The texts of two values, a decimal and one with a sign, one after the other.
fn printed(alloc: Global, number: u64, signed: i64) -> Result<Vec<u8>, AllocError> {
    let mut out = Vec::new(alloc);
    push_decimal(&mut out, number)?;
    push_text(&mut out, b";")?;
    push_signed(&mut out, signed)?;
    push_number(&mut out, number)?;
    push_signed_number(&mut out, signed)?;
    push_marked(&mut out, b'.', number)?;
    push_word(&mut out, b"end")?;
    Ok(out)
}

const PRINTED: &[(u64, i64, &str)] = &[
    (0, 0, "0;0 0 0.0 end"),
    (7, -1, "7;-1 7 -1.7 end"),
    (100, 90, "100;90 100 90.100 end"),
    (
        u64::MAX,
        i64::MIN,
        "18446744073709551615;-9223372036854775808 18446744073709551615 -9223372036854775808.18446744073709551615 end",
    ),
];

fn printed_cases() -> &'static [(u64, i64, &'static str)] {
    PRINTED
}

#[test]
fn writes_numbers_and_words(rt: HostRuntime) -> Result<(), Fail> {
    for (number, signed, wanted) in printed_cases() {
        let out = printed(rt.alloc(), *number, *signed)?;
        assert_eq!(rt; out.as_slice(), wanted.as_bytes(), "{wanted}");
    }
    Ok(())
}

#[test]
fn takes_back_what_was_begun(rt: HostRuntime) -> Result<(), Fail> {
    let mut out = Vec::new(rt.alloc());
    push_text(&mut out, b"op 1")?;
    assert!(rt; keep_whole(&mut out, 2, Ok(())).is_ok());
    assert_eq!(rt; out.as_slice(), b"op 1".as_slice());
    assert!(rt; keep_whole(&mut out, 2, Err(AllocError)).is_err());
    assert_eq!(rt; out.as_slice(), b"op".as_slice());
    Ok(())
}

// The words of a line, each in brackets.
fn bracketed(alloc: Global, line: &str) -> Result<Vec<u8>, AllocError> {
    let mut out = Vec::new(alloc);
    for word in Words::new(line.as_bytes()) {
        push_text(&mut out, b"[")?;
        push_text(&mut out, word)?;
        push_text(&mut out, b"]")?;
    }
    Ok(out)
}

const LINES: &[(&str, &str)] = &[
    ("op 1 c1", "[op][1][c1]"),
    ("end", "[end]"),
    ("", "[]"),
    (" op", "[][op]"),
    ("op ", "[op][]"),
    ("op  1", "[op][][1]"),
    ("op\t1\n", "[op\t1\n]"),
];

fn lines() -> &'static [(&'static str, &'static str)] {
    LINES
}

#[test]
fn divides_lines_at_blanks(rt: HostRuntime) -> Result<(), Fail> {
    for (line, wanted) in lines() {
        let words = bracketed(rt.alloc(), line)?;
        assert_eq!(rt; words.as_slice(), wanted.as_bytes(), "{line}");
    }
    Ok(())
}

// The lines of a text, each behind its number, and the number of what is left.
fn numbered(alloc: Global, text: &str) -> Result<Vec<u8>, AllocError> {
    let mut lines = Lines::new(text.as_bytes());
    let mut out = Vec::new(alloc);
    for _ in 0..4 {
        let number = lines.number();
        if number > 9 {
            break;
        }
        push_number(&mut out, u64::from(number))?;
        match lines.next_line() {
            Some(line) => push_word(&mut out, line)?,
            None if lines.is_at_end() => push_text(&mut out, b" end")?,
            None => push_text(&mut out, b" rest")?,
        }
    }
    Ok(out)
}

const TEXTS: &[(&str, &str)] = &[
    ("a\n\nb c\n", " 1 a 2  3 b c 4 end"),
    ("a\nb", " 1 a 2 rest 2 rest 2 rest"),
    ("", " 1 end 1 end 1 end 1 end"),
];

fn texts() -> &'static [(&'static str, &'static str)] {
    TEXTS
}

#[test]
fn numbers_the_lines_of_a_text(rt: HostRuntime) -> Result<(), Fail> {
    for (text, wanted) in texts() {
        let out = numbered(rt.alloc(), text)?;
        assert_eq!(rt; out.as_slice(), wanted.as_bytes(), "{text}");
    }
    Ok(())
}

// The fields of a line of the word `op`, a decimal up to 40, a name and a decimal with a sign.
fn fields(line: &str) -> Option<(u64, usize, i64)> {
    let mut words = Words::new(line.as_bytes());
    words.key(b"op")?;
    let number = words.decimal(40)?;
    let name = words.name()?;
    let signed = words.signed()?;
    words.end()?;
    Some((number, name.len(), signed))
}

const FIELDS: &[(&str, Option<(u64, usize, i64)>)] = &[
    ("op 7 c1 -12", Some((7, 2, -12))),
    ("op 40 unit.A 0", Some((40, 6, 0))),
    ("ap 7 c1 -12", None),
    ("o 7 c1 -12", None),
    ("op1 7 c1 -12", None),
    ("op 41 c1 -12", None),
    ("op 07 c1 -12", None),
    ("op -7 c1 -12", None),
    ("op 7 c,1 -12", None),
    ("op 7  -12", None),
    ("op 7 c1 -0", None),
    ("op 7 c1", None),
    ("op 7 c1 -12 ", None),
    ("op 7 c1 -12 5", None),
    ("", None),
];

fn field_cases() -> &'static [(&'static str, Option<(u64, usize, i64)>)] {
    FIELDS
}

#[test]
fn reads_a_line_word_by_word(rt: HostRuntime) {
    for (line, wanted) in field_cases() {
        assert_eq!(rt; fields(line), *wanted, "{line}");
    }
}

// Whether the text is divided so at its first dot.
fn is_divided(text: &str, wanted: Option<(&str, &str)>) -> bool {
    match (split_at_mark(text.as_bytes(), b'.'), wanted) {
        (None, None) => true,
        (Some((before, after)), Some((first, second))) => {
            before == first.as_bytes() && after == second.as_bytes()
        }
        _ => false,
    }
}

const DIVIDED: &[(&str, Option<(&str, &str)>)] = &[
    ("a.b", Some(("a", "b"))),
    ("a.b.c", Some(("a", "b.c"))),
    ("a.", Some(("a", ""))),
    (".b", Some(("", "b"))),
    ("..", Some(("", "."))),
    ("a", None),
    ("a=b", None),
    ("", None),
];

fn divided() -> &'static [(&'static str, Option<(&'static str, &'static str)>)] {
    DIVIDED
}

#[test]
fn divides_at_the_first_mark(rt: HostRuntime) {
    for (text, wanted) in divided() {
        assert!(rt; is_divided(text, *wanted), "{text}");
    }
}

// Whether this decimal of at most 99 is read before the first dot, and this is what stands after it.
fn is_read_before(text: &str, wanted: Option<(u64, &str)>) -> bool {
    match (read_before(text.as_bytes(), b'.', 99), wanted) {
        (None, None) => true,
        (Some((number, rest)), Some((wanted, after))) => {
            number == wanted && rest == after.as_bytes()
        }
        _ => false,
    }
}

const BEFORE: &[(&str, Option<(u64, &str)>)] = &[
    ("12.3.4", Some((12, "3.4"))),
    ("0.a", Some((0, "a"))),
    ("99.", Some((99, ""))),
    ("100.3", None),
    ("012.3", None),
    ("-1.3", None),
    ("12=3.4", None),
    (".3", None),
    ("12", None),
    ("", None),
];

fn before_cases() -> &'static [(&'static str, Option<(u64, &'static str)>)] {
    BEFORE
}

#[test]
fn reads_a_decimal_before_a_mark(rt: HostRuntime) {
    for (text, wanted) in before_cases() {
        assert!(rt; is_read_before(text, *wanted), "{text}");
    }
}
