use super::Told::LeftOut;
use super::check;
use std::test::Fail;

// ECMA-262, section 12.7.2
#[test]
fn reserved_words(rt: HostRuntime) -> Result<(), Fail> {
    check(
        &rt,
        rt.alloc(),
        &[
            ("class A {}", LeftOut(0, "class")),
            ("x = class {}", LeftOut(4, "class")),
            ("switch (a) {}", LeftOut(0, "switch")),
            ("var a", LeftOut(0, "var")),
            ("import a", LeftOut(0, "import")),
            ("a.b = yield", LeftOut(6, "yield")),
            ("delete a.b", LeftOut(0, "delete")),
            ("a in b", LeftOut(2, "in")),
            ("a instanceof B", LeftOut(2, "instanceof")),
            ("do a; while (b)", LeftOut(0, "do")),
            ("with (a) b", LeftOut(0, "with")),
            ("f(void a)", LeftOut(2, "void")),
            ("super.a", LeftOut(0, "super")),
            ("if (a) debugger", LeftOut(7, "debugger")),
            ("enum A {}", LeftOut(0, "enum")),
            ("for (let a in b) c", LeftOut(11, "in")),
        ],
    )
}

// section 12.8
#[test]
fn signs(rt: HostRuntime) -> Result<(), Fail> {
    check(
        &rt,
        rt.alloc(),
        &[
            ("a == b", LeftOut(2, "==")),
            ("a\n== b", LeftOut(2, "==")),
            ("a != b", LeftOut(2, "!=")),
            ("[...a]", LeftOut(1, "...")),
            ("({...a})", LeftOut(2, "...")),
            ("function f(...a) {}", LeftOut(11, "...")),
            ("a ** b", LeftOut(2, "**")),
            ("a?.b", LeftOut(1, "?.")),
            ("a & b", LeftOut(2, "&")),
            ("a | b", LeftOut(2, "|")),
            ("a ^ b", LeftOut(2, "^")),
            ("~a", LeftOut(0, "~")),
            ("a << b", LeftOut(2, "<<")),
            ("a >> b", LeftOut(2, ">>")),
            ("a >>> b", LeftOut(2, ">>>")),
        ],
    )
}

// section 13.15
#[test]
fn assignments(rt: HostRuntime) -> Result<(), Fail> {
    check(
        &rt,
        rt.alloc(),
        &[
            ("a *= b", LeftOut(2, "*=")),
            ("a /= b", LeftOut(2, "/=")),
            ("a %= b", LeftOut(2, "%=")),
            ("a **= b", LeftOut(2, "**=")),
            ("a <<= b", LeftOut(2, "<<=")),
            ("a >>= b", LeftOut(2, ">>=")),
            ("a >>>= b", LeftOut(2, ">>>=")),
            ("a &= b", LeftOut(2, "&=")),
            ("a |= b", LeftOut(2, "|=")),
            ("a ^= b", LeftOut(2, "^=")),
            ("a &&= b", LeftOut(2, "&&=")),
            ("a ||= b", LeftOut(2, "||=")),
            ("a ??= b", LeftOut(2, "??=")),
        ],
    )
}

// `+` and `/` where an expression or a statement begins, and `,` behind an expression
#[test]
fn signs_by_where_they_stand(rt: HostRuntime) -> Result<(), Fail> {
    check(
        &rt,
        rt.alloc(),
        &[
            ("+a", LeftOut(0, "+")),
            ("typeof +a", LeftOut(7, "+")),
            ("f(a, +b)", LeftOut(5, "+")),
            ("/b/", LeftOut(0, "regular expression")),
            ("x = /b/", LeftOut(4, "regular expression")),
            ("x = /=b/", LeftOut(4, "regular expression")),
            ("let a\n/b/", LeftOut(6, "regular expression")),
            ("x => {}\n/b/", LeftOut(8, "regular expression")),
            ("a, b", LeftOut(1, "comma")),
            ("a\n, b", LeftOut(2, "comma")),
            ("-(a, b)", LeftOut(3, "comma")),
            ("x => {}, b", LeftOut(7, "comma")),
            ("for (a, b;;) c", LeftOut(6, "comma")),
            ("({a}, b) => c", LeftOut(4, "comma")),
        ],
    )
}

#[test]
fn names_and_keys(rt: HostRuntime) -> Result<(), Fail> {
    check(
        &rt,
        rt.alloc(),
        &[
            ("let [a] = b", LeftOut(4, "destructuring")),
            ("for (const {a} of b) ;", LeftOut(11, "destructuring")),
            ("function f({a}) {}", LeftOut(11, "destructuring")),
            ("(a, [b]) => c", LeftOut(4, "destructuring")),
            ("function f(a = 1) {}", LeftOut(13, "default")),
            ("({a(b, c = 1) {}})", LeftOut(9, "default")),
            ("({async [a]() {}})", LeftOut(8, "computed")),
            ("export default {[a]() {}}", LeftOut(16, "computed")),
            ("({set 'a'(b) {}})", LeftOut(6, "set")),
            ("({get class() {}})", LeftOut(6, "get")),
            ("({get 1() {}})", LeftOut(6, "get")),
            ("a\n: b", LeftOut(2, "label")),
            ("{ a: while (b) c }", LeftOut(3, "label")),
            ("if (a) b: c", LeftOut(8, "label")),
        ],
    )
}
