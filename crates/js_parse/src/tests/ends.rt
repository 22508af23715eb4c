use super::Told::{Items, Syntax};
use super::check;
use std::test::Fail;

// ECMA-262, section 12.10.2
#[test]
fn the_examples_of_the_standard(rt: HostRuntime) -> Result<(), Fail> {
    check(
        &rt,
        rt.alloc(),
        &[
            ("{ 1 2 } 3", Syntax(4)),
            ("{ 1\n2 } 3", Items(2)),
            ("for (a; b\n)", Syntax(10)),
            ("return\na + b", Items(2)),
            ("a = b\n++c", Items(2)),
            ("if (a > b)\nelse c = d", Syntax(11)),
            ("a = b + c\n(d + e).print()", Items(1)),
        ],
    )
}

// before `}`, behind a line end, and at the script's end
#[test]
fn where_ends_are_put(rt: HostRuntime) -> Result<(), Fail> {
    check(
        &rt,
        rt.alloc(),
        &[
            ("{a}{}", Items(2)),
            ("x => { return }", Items(1)),
            ("while (a) { break }", Items(1)),
            ("function f() { return a }", Items(1)),
            ("let a", Items(1)),
            ("a\n", Items(1)),
            ("a\nb", Items(2)),
            ("a /*\n*/ b", Items(2)),
            ("a // b\nc", Items(2)),
            ("let a\nlet b = 1", Items(2)),
            ("break\ncontinue", Items(2)),
            ("throw a\nb", Items(2)),
            ("if (a) b\nelse c", Items(1)),
            ("for (;;)\na\nb", Items(2)),
            ("a++\n(b)", Items(2)),
            ("{}\n(a)", Items(2)),
        ],
    )
}

// the grammar allows the token behind the line end
#[test]
fn lines_that_go_on(rt: HostRuntime) -> Result<(), Fail> {
    check(
        &rt,
        rt.alloc(),
        &[
            ("a\n(b)", Items(1)),
            ("a\n[b]", Items(1)),
            ("a\n.b", Items(1)),
            ("a\n+b", Items(1)),
            ("a\n-b", Items(1)),
            ("a\n/b/c", Items(1)),
            ("a\n= b", Items(1)),
            ("a\n? b\n: c", Items(1)),
            ("let\na\n=\n1\n,\nb", Items(1)),
            ("return\n;", Items(1)),
            ("break\n;", Items(1)),
            ("x => a\n(b)", Items(1)),
            ("async\n(a)", Items(1)),
            ("while (a)\nb", Items(1)),
        ],
    )
}

// section 12.10.1: behind `return`, `throw` and `break`, before `++`, `--` and `=>`, behind `async`
#[test]
fn where_no_line_end_stands(rt: HostRuntime) -> Result<(), Fail> {
    check(
        &rt,
        rt.alloc(),
        &[
            ("return\na", Items(2)),
            ("return\n(a)", Items(2)),
            ("throw\na", Syntax(6)),
            ("break\na", Items(2)),
            ("continue\na", Items(2)),
            ("a\n++b", Items(2)),
            ("a\n--\nb", Items(2)),
            ("a\n++", Syntax(4)),
            ("a\n=> b", Syntax(2)),
            ("(a)\n=> b", Syntax(4)),
            ("async\nfunction f() {}", Items(2)),
            ("async\nx => y", Items(2)),
            ("async x\n=> y", Syntax(8)),
            ("async\n(a) => b", Syntax(10)),
            ("x => {}\n(a)", Items(2)),
            ("({async\na() {}})", Syntax(8)),
        ],
    )
}

// an end is put in neither on a line, nor for an empty statement, nor for a `;` of `for`
#[test]
fn where_no_end_is_put(rt: HostRuntime) -> Result<(), Fail> {
    check(
        &rt,
        rt.alloc(),
        &[
            ("a b", Syntax(2)),
            ("let a let b", Syntax(6)),
            ("return a b", Syntax(9)),
            ("throw a b", Syntax(8)),
            ("break a", Syntax(6)),
            ("x => {} a", Syntax(8)),
            ("const a\nb", Syntax(8)),
            ("a\n)", Syntax(2)),
            ("(a\nb", Syntax(3)),
            ("[a\nb]", Syntax(3)),
            ("{ if (a)\n}", Syntax(9)),
            ("while (a)\n", Syntax(10)),
            ("for (a\nb; c) d", Syntax(7)),
            ("for (;\n)", Syntax(7)),
            ("throw", Syntax(5)),
            ("throw\n", Syntax(6)),
        ],
    )
}

// what this page says of its own: templates behind values, and what follows a default export
#[test]
fn where_ends_are_put_otherwise(rt: HostRuntime) -> Result<(), Fail> {
    check(
        &rt,
        rt.alloc(),
        &[
            ("a\n`b`", Items(2)),
            ("export default {}\n(a)", Items(2)),
            ("export default {} a", Items(2)),
            ("export default {} -a", Items(2)),
        ],
    )
}
