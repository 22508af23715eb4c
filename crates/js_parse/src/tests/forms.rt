use super::Told::Items;
use super::check;
use crate::parse;
use js_tree::{BinaryOp, Expr, Item, Stmt, Tree};
use std::test::Fail;
use wd_base::units_of;

// ECMA-262, sections 14 and 16.2
#[test]
fn statements(rt: HostRuntime) -> Result<(), Fail> {
    check(
        &rt,
        rt.alloc(),
        &[
            ("", Items(0)),
            (";;", Items(2)),
            ("let a = 1, b; const c = 2", Items(2)),
            (
                "function f(a, b,) { return a } async function g() {}",
                Items(2),
            ),
            ("{ a; { b } let c }", Items(1)),
            ("if (a) if (b) c; else d", Items(1)),
            ("if (a) ; else if (b) {} else {}", Items(1)),
            ("for (;;) ;", Items(1)),
            ("for (let i = 0, j; i < 3; i++) {}", Items(1)),
            ("for (a; b; c) while (d) e", Items(1)),
            ("for (const of of of) of", Items(1)),
            (
                "try {} catch {} try {} catch (e) {} finally {} try {} finally {}",
                Items(3),
            ),
            ("if (a) try {} catch {} else b", Items(1)),
            ("break; continue; return; return a; throw b", Items(5)),
            ("export default {};;", Items(2)),
            ("a; export default { fetch() {} }; b", Items(3)),
        ],
    )
}

// sections 13.4 to 13.15
#[test]
fn operators(rt: HostRuntime) -> Result<(), Fail> {
    check(
        &rt,
        rt.alloc(),
        &[
            ("a + b * c - d === e && f || g", Items(1)),
            ("a < b !== c >= d % e / f", Items(1)),
            ("a ?? b ?? c", Items(1)),
            ("(a || b) ?? c", Items(1)),
            ("a ?? (b && c)", Items(1)),
            ("-a++ + ++b.c", Items(1)),
            ("++a().b", Items(1)),
            ("--a[0]", Items(1)),
            ("typeof await !- -a", Items(1)),
            ("a = b += c -= d", Items(1)),
            ("a.b[c] = d", Items(1)),
            ("a ? b = 1 : c ? d : e", Items(1)),
            ("a ? b => c : d", Items(1)),
            ("a ? (b) => (c) : d => e", Items(1)),
            ("a = b ? c : d", Items(1)),
            ("a / b / c", Items(1)),
        ],
    )
}

// sections 13.2.8 and 13.3
#[test]
fn calls_members_and_templates(rt: HostRuntime) -> Result<(), Fail> {
    check(
        &rt,
        rt.alloc(),
        &[
            ("new A(b,).c[d](e)", Items(1)),
            ("a.class.if", Items(1)),
            ("f(a => b, (c) => d, () => {})", Items(1)),
            ("[a, [], b,][0]", Items(1)),
            ("this.a(true, false, null)", Items(1)),
            ("(a)(b)", Items(1)),
            ("'a'.b", Items(1)),
            ("(function f(a) {})()", Items(1)),
            ("x = function () {}(a)", Items(1)),
            ("new of(get, set)", Items(1)),
            ("``", Items(1)),
            ("`a`.b", Items(1)),
            ("`a${b}c${`d${e}`}f`", Items(1)),
            ("`${{a: 1}}`", Items(1)),
            ("`${() => {}}`", Items(1)),
            ("f(`a\n${b}`)", Items(1)),
        ],
    )
}

// section 13.2.5
#[test]
fn objects(rt: HostRuntime) -> Result<(), Fail> {
    check(
        &rt,
        rt.alloc(),
        &[
            ("x = {}", Items(1)),
            ("({a, b: 1, 'c': 2, 3: 4,})", Items(1)),
            ("({class: 1, get: 2, set: 3, async: 4})", Items(1)),
            ("({get, set, async, of})", Items(1)),
            ("({get() {}, set() {}, async() {}})", Items(1)),
            ("({if(a, b,) {}, 'c'() {}, 2() {}})", Items(1)),
            ("({async a() {}, async 'b'(c) {}, async 1() {}})", Items(1)),
            (
                "({async class() {}, async async() {}, async get() {}})",
                Items(1),
            ),
            ("({a: b = c, d: e => f, g: h ? i : j})", Items(1)),
            ("f({a: {b: {}}})", Items(1)),
            (
                "export default { a, async b() { await c }, d: 1, }",
                Items(1),
            ),
        ],
    )
}

// sections 15.3 and 15.9
#[test]
fn arrows(rt: HostRuntime) -> Result<(), Fail> {
    check(
        &rt,
        rt.alloc(),
        &[
            ("a => b", Items(1)),
            ("() => {}", Items(1)),
            ("(a) => (b)", Items(1)),
            ("(a, b,) => a => b", Items(1)),
            ("a => ({})", Items(1)),
            ("a = b => c", Items(1)),
            ("async => async", Items(1)),
            ("async x => await x", Items(1)),
            ("async () => {}", Items(1)),
            ("async (a, b) => {}", Items(1)),
            ("(async x => y)", Items(1)),
            ("(async, b) => c", Items(1)),
        ],
    )
}

// what might have been an arrow, or a function
#[test]
fn groups_and_the_name_async(rt: HostRuntime) -> Result<(), Fail> {
    check(
        &rt,
        rt.alloc(),
        &[
            ("(a)", Items(1)),
            ("(a = 1)", Items(1)),
            ("(a.b)", Items(1)),
            ("(async)", Items(1)),
            ("async()", Items(1)),
            ("async(a, 1, async)", Items(1)),
            ("async (a, b).c", Items(1)),
            ("async.b = async + 1", Items(1)),
            ("x = async function () {}", Items(1)),
            ("let async, of, get, set", Items(1)),
        ],
    )
}

/// The form of an expression.
#[derive(Clone, Copy, Debug, PartialEq, Eq)]
enum Form {
    Binary(BinaryOp),
    Unary,
    Assign,
    Conditional,
    Arrow,
    Call,
    Member,
    Other,
}

fn form_of(expr: &Expr) -> Form {
    match expr {
        Expr::Binary(operator, ..) => Form::Binary(*operator),
        Expr::Unary(..) => Form::Unary,
        Expr::Assign(..) => Form::Assign,
        Expr::Conditional(..) => Form::Conditional,
        Expr::Arrow { .. } => Form::Arrow,
        Expr::Call(..) => Form::Call,
        Expr::Member(..) => Form::Member,
        _ => Form::Other,
    }
}

/// The form of the expression that is the script's first item.
fn first_form(tree: &Tree) -> Option<Form> {
    match tree.get(0) {
        Some(Item::Stmt(Stmt::Expr(expr))) => Some(form_of(expr)),
        _ => None,
    }
}

// the form that is the outermost, by ECMA-262's precedence
#[test]
fn operators_hold_by_their_strengths(rt: HostRuntime) -> Result<(), Fail> {
    let rows = [
        ("a + b * c", Form::Binary(BinaryOp::Add)),
        ("a * b + c", Form::Binary(BinaryOp::Add)),
        ("a - b % c < d", Form::Binary(BinaryOp::Less)),
        ("a < b === c", Form::Binary(BinaryOp::Identical)),
        ("a && b === c", Form::Binary(BinaryOp::And)),
        ("a || b && c", Form::Binary(BinaryOp::Or)),
        ("-a * b", Form::Binary(BinaryOp::Multiply)),
        ("!a.b", Form::Unary),
        ("a = b ? c : d", Form::Assign),
        ("a ? b : c = d", Form::Conditional),
        ("a => b ? c : d", Form::Arrow),
        ("a.b(c)", Form::Call),
        ("a\n(b)", Form::Call),
        ("async (a)", Form::Call),
        ("new a(b).c", Form::Member),
        ("(a, b) => c", Form::Arrow),
    ];
    let alloc = rt.alloc();
    for (script, expected) in rows {
        let units = units_of(alloc, script.as_bytes())?;
        match parse(alloc, &units) {
            Ok(tree) => assert_eq!(rt; first_form(&tree), Some(expected), "{script}"),
            Err(end) => assert!(rt; false, "{script}: {end:?}"),
        }
    }
    Ok(())
}
