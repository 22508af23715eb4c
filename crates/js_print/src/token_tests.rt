use crate::token_text::token_text;
use js_lex::{Punctuator, Reserved, TemplatePart, TokenKind};
use std::alloc::Global;
use std::test::Fail;
use wd_base::{NoMemory, Seq, Units, units_of};

/// The text of a kind behind `a`.
fn written(alloc: Global, kind: &TokenKind) -> Result<Units, NoMemory> {
    let mut out = units_of(alloc, b"a")?;
    token_text(alloc, &mut out, kind)?;
    Ok(out)
}

#[test]
fn a_token_has_this_text(rt: HostRuntime) -> Result<(), Fail> {
    let alloc = rt.alloc();
    let rows: [(TokenKind, &[u8]); 14] = [
        (TokenKind::Name(units_of(alloc, b"$b_1")?), b"a$b_1"),
        (TokenKind::Reserved(Reserved::InstanceOf), b"ainstanceof"),
        (TokenKind::Reserved(Reserved::Await), b"aawait"),
        (TokenKind::Number(0), b"a0"),
        (TokenKind::Number(9007199254740991), b"a9007199254740991"),
        (TokenKind::Text(Seq::new(alloc)), b"a\"\""),
        (
            TokenKind::Text(units_of(alloc, b"'$`\"\\\n\r")?),
            b"a\"'$`\\\"\\\\\\n\\r\"",
        ),
        (
            TokenKind::Template(TemplatePart::Whole, units_of(alloc, b"'$`\"\\\n\r")?),
            b"a`'\\$\\`\"\\\\\\n\\r`",
        ),
        (
            TokenKind::Template(TemplatePart::Head, units_of(alloc, b"b")?),
            b"a`b${",
        ),
        (
            TokenKind::Template(TemplatePart::Middle, units_of(alloc, b"b")?),
            b"a}b${",
        ),
        (
            TokenKind::Template(TemplatePart::Tail, units_of(alloc, b"b")?),
            b"a}b`",
        ),
        (
            TokenKind::Punctuator(Punctuator::ShiftRightUnsignedEqual),
            b"a>>>=",
        ),
        (TokenKind::Punctuator(Punctuator::Arrow), b"a=>"),
        (TokenKind::End, b"a"),
    ];
    for row in rows.as_slice() {
        let expected = units_of(alloc, row.1)?;
        let text = written(alloc, &row.0)?;
        assert_eq!(rt; text.as_slice(), expected.as_slice());
    }
    Ok(())
}
