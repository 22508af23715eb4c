use crate::{Spot, Word, strength, word_of};
use js_lex::lex;
use std::alloc::Global;
use std::test::Fail;
use wd_base::{NoMemory, units_of};

const EXPRESSION: Spot = Spot::ExpressionBegin;

const OPERAND: Spot = Spot::OperandEnd;

const DECLARED: Spot = Spot::DeclaredName;

const KEY: Spot = Spot::Key;

const PARAMETER: Spot = Spot::Parameter;

const STATEMENT: Spot = Spot::StatementBegin;

fn word(alloc: Global, script: &[u8], number: usize, spot: Spot) -> Result<Option<Word>, NoMemory> {
    let units = units_of(alloc, script)?;
    let tokens = lex(alloc, &units)?;
    Ok(word_of(&tokens, number, spot))
}

#[test]
fn the_words_at_each_spot(rt: HostRuntime) -> Result<(), Fail> {
    let rows: [(&[u8], usize, Spot, Option<Word>); 41] = [
        (b"class A", 0, STATEMENT, Some(Word::Class)),
        (b"a in b", 1, OPERAND, Some(Word::In)),
        (b"import a", 0, STATEMENT, Some(Word::Import)),
        (b"var", 0, STATEMENT, Some(Word::Var)),
        (b"f(super)", 2, EXPRESSION, Some(Word::Super)),
        (b"const a", 0, EXPRESSION, None),
        (b"a == b", 1, OPERAND, Some(Word::EqualEqual)),
        (b"a === b", 1, OPERAND, None),
        (b"a ** b", 1, OPERAND, Some(Word::StarStar)),
        (b"a?.b", 1, OPERAND, Some(Word::QuestionDot)),
        (b"a >>>= b", 1, OPERAND, Some(Word::ShiftRightUnsignedEqual)),
        (b"a += b", 1, OPERAND, None),
        (b"~a", 0, EXPRESSION, Some(Word::Tilde)),
        (b"[...a]", 1, EXPRESSION, Some(Word::Ellipsis)),
        // `+`, `/` and `/=` where an expression begins, and behind an operand
        (b"+a", 0, EXPRESSION, Some(Word::UnaryPlus)),
        (b"+a", 0, STATEMENT, Some(Word::UnaryPlus)),
        (b"a + b", 1, OPERAND, None),
        (b"/a/", 0, EXPRESSION, Some(Word::RegularExpression)),
        (b"/=a/", 0, STATEMENT, Some(Word::RegularExpression)),
        (b"a / b", 1, OPERAND, None),
        (b"a /= b", 1, OPERAND, Some(Word::SlashEqual)),
        // names
        (b"let [a]", 1, DECLARED, Some(Word::Destructuring)),
        (b"let {a}", 1, DECLARED, Some(Word::Destructuring)),
        (b"[a]", 0, EXPRESSION, None),
        (b"f({a})", 2, PARAMETER, Some(Word::Destructuring)),
        (b"(a = 1) =>", 2, PARAMETER, Some(Word::Default)),
        (b"a = 1", 1, OPERAND, None),
        (b"a: b", 0, STATEMENT, Some(Word::Label)),
        (b"a: b", 0, KEY, None),
        (b"a, b", 1, OPERAND, Some(Word::Comma)),
        (b"a, b", 1, PARAMETER, None),
        // keys
        (b"{[a]: b}", 1, KEY, Some(Word::Computed)),
        (b"{get a() {}}", 1, KEY, Some(Word::Get)),
        (b"{set 'a'(b) {}}", 1, KEY, Some(Word::Set)),
        (b"{get: 1}", 1, KEY, None),
        (b"{get() {}}", 1, KEY, None),
        (b"{class: 1}", 1, KEY, None),
        (b"{in() {}}", 1, KEY, None),
        (b"{class}", 1, KEY, Some(Word::Class)),
        // no words
        (b"1.5", 0, EXPRESSION, None),
        (b"a", 2, EXPRESSION, None),
    ];
    let alloc = rt.alloc();
    for (script, number, spot, expected) in rows {
        assert_eq!(rt; word(alloc, script, number, spot)?, expected);
    }
    Ok(())
}

#[test]
fn the_strengths_of_operators(rt: HostRuntime) -> Result<(), Fail> {
    let rows: [(&[u8], Option<u8>); 8] = [
        (b"??", Some(1)),
        (b"||", Some(1)),
        (b"&&", Some(2)),
        (b"!==", Some(3)),
        (b">=", Some(4)),
        (b"-", Some(5)),
        (b"%", Some(6)),
        (b"=", None),
    ];
    let alloc = rt.alloc();
    for (script, expected) in rows {
        let units = units_of(alloc, script)?;
        let tokens = lex(alloc, &units)?;
        let found = match tokens.get(0) {
            Some(token) => strength(token),
            None => None,
        };
        assert_eq!(rt; found, expected);
    }
    Ok(())
}
