use super::Told::{LeftOut, Syntax};
use super::check;
use std::test::Fail;

// the examples of `docs/SCRIPTS.md`
#[test]
fn the_first_fault(rt: HostRuntime) -> Result<(), Fail> {
    check(
        &rt,
        rt.alloc(),
        &[
            ("export default {", Syntax(16)),
            ("class A {}", LeftOut(0, "class")),
            ("let rate = 0.5", LeftOut(11, "number")),
            ("switch (a) {}", LeftOut(0, "switch")),
            ("f(...a)", LeftOut(2, "...")),
            ("a b", Syntax(2)),
            ("a b 1.5", Syntax(2)),
            ("a: b", LeftOut(1, "label")),
            ("async\ny : b", LeftOut(8, "label")),
            ("async y : b", Syntax(8)),
            ("({get a() {}})", LeftOut(6, "get")),
            ("({class})", LeftOut(7, "class")),
            ("({async get x() {}})", Syntax(12)),
            ("({[a]: b})", LeftOut(2, "computed")),
            ("({+", Syntax(2)),
            ("a = +b", LeftOut(4, "+")),
        ],
    )
}

#[test]
fn the_word_of_the_first_fault(rt: HostRuntime) -> Result<(), Fail> {
    check(
        &rt,
        rt.alloc(),
        &[
            ("x.+", Syntax(2)),
            ("let a\n+b", LeftOut(6, "+")),
            ("throw\n+a", Syntax(6)),
            ("x.catch(/=/)", LeftOut(8, "regular expression")),
            ("let x, {", LeftOut(7, "destructuring")),
            ("let x = 1 {", Syntax(10)),
            ("try {} catch ({a}) {}", LeftOut(14, "destructuring")),
            ("(a, b = 1) => c", LeftOut(6, "default")),
            ("(a = 1) => b", Syntax(8)),
            ("(a.b, c)", LeftOut(4, "comma")),
            ("(a, b)", Syntax(6)),
            ("++{},", Syntax(4)),
            ("x\n+ class", LeftOut(4, "class")),
            ("a = 1.5 b", LeftOut(4, "number")),
            ("f(", Syntax(2)),
        ],
    )
}

// forms of ECMA-262 that scripts have not, and that have no word
#[test]
fn left_out_with_no_word(rt: HostRuntime) -> Result<(), Fail> {
    check(
        &rt,
        rt.alloc(),
        &[
            ("[a] = b", Syntax(4)),
            ("({a}) => b", Syntax(6)),
            ("function* f() {}", Syntax(8)),
            ("for (a of b) c", Syntax(7)),
            ("for await (const a of b) c", Syntax(4)),
            ("a`b`", Syntax(1)),
            ("[, a]", Syntax(1)),
            ("new a", Syntax(5)),
            ("new a.b()", Syntax(5)),
            ("async (a, {b}) => c", Syntax(15)),
            ("new.target", Syntax(3)),
            ("(a) = 1", Syntax(4)),
            ("export const a = 1", Syntax(7)),
            ("export default a", Syntax(15)),
            ("a\\u0062", Syntax(1)),
            ("#!a", Syntax(0)),
        ],
    )
}

#[test]
fn places_in_lists(rt: HostRuntime) -> Result<(), Fail> {
    check(
        &rt,
        rt.alloc(),
        &[
            ("}", Syntax(0)),
            ("(", Syntax(1)),
            ("()", Syntax(2)),
            ("() + 1", Syntax(3)),
            ("(a, b)\nc", Syntax(7)),
            ("(a, 1", Syntax(4)),
            ("a(b,", Syntax(4)),
            ("a(b,,", Syntax(4)),
            ("f(a b)", Syntax(4)),
            ("[a", Syntax(2)),
            ("({class", Syntax(7)),
            ("({,", Syntax(2)),
            ("({'a'})", Syntax(5)),
            ("({a b})", Syntax(4)),
            ("let a,", Syntax(6)),
            ("`a${b`", Syntax(5)),
        ],
    )
}

// sections 13.4, 13.13 and 13.15: targets, and `??` beside `||` and `&&`
#[test]
fn places_among_operators(rt: HostRuntime) -> Result<(), Fail> {
    check(
        &rt,
        rt.alloc(),
        &[
            ("1++", Syntax(1)),
            ("++1", Syntax(3)),
            ("++a++", Syntax(3)),
            ("++-a", Syntax(2)),
            ("a++.b", Syntax(3)),
            ("a + b = c", Syntax(6)),
            ("f() = 1", Syntax(4)),
            ("-a = b", Syntax(3)),
            ("1 + a => b", Syntax(6)),
            ("x => {} + 1", Syntax(8)),
            ("x => {}(a)", Syntax(7)),
            ("a ?? b || c", Syntax(7)),
            ("a ?? b && c", Syntax(7)),
            ("a || b ?? c", Syntax(7)),
            ("a && b ?? c", Syntax(7)),
            ("a ? b", Syntax(5)),
        ],
    )
}

#[test]
fn places_among_statements(rt: HostRuntime) -> Result<(), Fail> {
    check(
        &rt,
        rt.alloc(),
        &[
            ("const a", Syntax(7)),
            ("const a;", Syntax(7)),
            ("if (a) let b", Syntax(7)),
            ("while (a) const b = 1", Syntax(10)),
            ("if (a) function f() {}", Syntax(7)),
            ("if (a) async function f() {}", Syntax(13)),
            ("if (a) b else c", Syntax(9)),
            ("else a", Syntax(0)),
            ("try {}", Syntax(6)),
            ("try {} a", Syntax(7)),
            ("catch {}", Syntax(0)),
            ("for (const a) b", Syntax(12)),
            ("for (const a = 1 of b) c", Syntax(17)),
            ("function () {}", Syntax(9)),
            ("export default {} export", Syntax(18)),
            ("{ export default {} }", Syntax(2)),
        ],
    )
}

// a token that cannot be read, behind the begin of a script; places count UTF-16 units
#[test]
fn places_of_units_that_are_no_token(rt: HostRuntime) -> Result<(), Fail> {
    check(
        &rt,
        rt.alloc(),
        &[
            ("'a", Syntax(0)),
            ("a /* b", Syntax(2)),
            ("a = '\\1'", Syntax(4)),
            ("a @", Syntax(2)),
            ("a 1.5", LeftOut(2, "number")),
            ("f(9007199254740992)", LeftOut(2, "number")),
            ("let \u{E9}", LeftOut(4, "identifier")),
            ("'\u{1F600}' a", Syntax(5)),
            ("\u{FEFF}a b", Syntax(2)),
        ],
    )
}
