use crate::{Decl, File, ParseEnd, TextFault, TextKind, Value, parse};
use std::alloc::Global;
use std::test::Fail;
use wd_base::NoMemory;

const OK: Option<(TextKind, usize)> = None;

fn bad_byte(place: usize) -> Option<(TextKind, usize)> {
    Some((TextKind::BadByte, place))
}

fn bad_token(place: usize) -> Option<(TextKind, usize)> {
    Some((TextKind::BadToken, place))
}

fn unclosed(place: usize) -> Option<(TextKind, usize)> {
    Some((TextKind::Unclosed, place))
}

fn bad_decl(place: usize) -> Option<(TextKind, usize)> {
    Some((TextKind::BadDecl, place))
}

fn too_deep(place: usize) -> Option<(TextKind, usize)> {
    Some((TextKind::TooDeep, place))
}

/// The fault of a text, if it has one.
fn fault(alloc: Global, text: &[u8]) -> Result<Option<(TextKind, usize)>, NoMemory> {
    match parse(alloc, text) {
        Ok(_file) => Ok(None),
        Err(ParseEnd::Fault(TextFault { kind, place })) => Ok(Some((kind, place))),
        Err(ParseEnd::NoMemory) => Err(NoMemory),
    }
}

// A constant's value begins at 13 in `const a :T = ..`, and at 26 in `const c :Workerd.Config = ..`.
#[test]
fn the_first_fault_is_told(rt: HostRuntime) -> Result<(), Fail> {
    let rows: [(&[u8], Option<(TextKind, usize)>); 50] = [
        (b"", OK),
        (b"# a comment without a line end", OK),
        (b" \t\r\n# a comment\n", OK),
        (b"@ 0x1fE;", OK),
        (b"using A=import\"a\";", OK),
        (b"const a :A.B.C = [1, 2,];", OK),
        (b"const a :T = (x = 1, y = true,);", OK),
        (b"const a :T = ();const b :T = [];", OK),
        (b"const embed :using = (const = import, x = embed);", OK),
        (b"$", bad_byte(0)),
        (b"const a :T = _;", bad_byte(13)),
        (b"const a :T = a\xC3\xA9;", bad_byte(14)),
        (b"const a :T = 12a;", bad_byte(15)),
        (b"const a :T = \"\\q\";", bad_byte(15)),
        (b"const a :T = \"a\nb\";", bad_byte(15)),
        (b"const a :T = \"\\x4g\";", bad_byte(17)),
        (b"const a :T = 0x;", bad_byte(15)),
        (b"const a :T = 0x\" de\";", bad_byte(16)),
        (b"const a :T = 0x\"d e\";", bad_byte(17)),
        (b"const a :T = 0x\"de \";", bad_byte(19)),
        (b"const a :T = [1,,2];", bad_token(16)),
        (b"const a :T = [,];", bad_token(14)),
        (b"const a :T = (,);", bad_token(14)),
        (b"const a :T = (1);", bad_token(14)),
        (b"const a :T = (x 1);", bad_token(16)),
        (b"const a :T = [1);", bad_token(15)),
        (b"const a :T = 0x1f;", bad_token(13)),
        (b"const a :T = embed \"p\" \"q\";", bad_token(23)),
        (b"const a : = 1;", bad_token(10)),
        (b"const a = 1;", bad_token(8)),
        (b"using A = include \"a\";", bad_token(10)),
        (b"@1f;", bad_token(1)),
        (b"const", unclosed(5)),
        (b"const a :T = 1", unclosed(14)),
        (b"const a :T = \"abc", unclosed(17)),
        (b"const a :T = \"a\\x4", unclosed(18)),
        (b"const a :T = 0x\"de", unclosed(18)),
        (b"const a :T = [(x = 1", unclosed(20)),
        (b"using A = import \"a\" # ;", unclosed(24)),
        (b"\"abc", unclosed(4)),
        (b"0x", unclosed(2)),
        (b"x = 1;", bad_decl(0)),
        (b"\"text\"", bad_decl(0)),
        (b"12$", bad_decl(0)),
        (b"const a :T = 1; ;", bad_decl(16)),
        (
            b"const c :Workerd.Config = [[[[[[[[[[[[[[[[[[[[[[[[[[[[[[[[[",
            too_deep(58),
        ),
        (
            b"const c :Workerd.Config = [[[[[[[[[[[[[[[[[[[[[[[[[[[[[[[[(",
            too_deep(58),
        ),
        (
            b"const c :Workerd.Config = [[[[[[[[[[[[[[[[[[[[[[[[[[[[[[[[;",
            bad_token(58),
        ),
        (
            b"const c :Workerd.Config = [[[[[[[[[[[[[[[[[[[[[[[[[[[[[[[[",
            unclosed(58),
        ),
        (
            b"const c :T = [[[[[[[[[[[[[[[[[[[[[[[[[[[[[[[[]]]]]]]]]]]]]]]]]]]]]]]]]]]]]]]];",
            OK,
        ),
    ];
    for (text, want) in rows {
        let found = fault(rt.alloc(), text)?;
        assert_eq!(rt; found, want, "{text:?}");
    }
    Ok(())
}

/// What a value is, its place, and the place and the bytes of the text or name in it.
fn told(value: &Value) -> (&'static str, usize, usize, &[u8]) {
    match value {
        Value::Text(text) => ("text", text.place, text.place, text.bytes.as_slice()),
        Value::Data(data) => ("data", data.place, data.place, data.bytes.as_slice()),
        Value::Number(digits) => (
            "number",
            digits.place,
            digits.place,
            digits.bytes.as_slice(),
        ),
        Value::Word(name) => ("word", name.place, name.place, name.bytes.as_slice()),
        Value::Constant(place, name) => ("constant", *place, name.place, name.bytes.as_slice()),
        Value::Embed(place, path) => ("embed", *place, path.place, path.bytes.as_slice()),
        Value::Struct(place, fields) => match fields.get(0) {
            Some(field) => (
                "struct",
                *place,
                field.name.place,
                field.name.bytes.as_slice(),
            ),
            None => ("struct", *place, *place, b""),
        },
        Value::List(place, items) => match items.get(0) {
            Some(_item) => ("list", *place, *place, b"item"),
            None => ("list", *place, *place, b""),
        },
    }
}

fn value_of(decl: &Decl) -> Option<&Value> {
    match decl {
        Decl::Const { value, .. } => Some(value),
        _ => None,
    }
}

#[test]
fn values_are_read(rt: HostRuntime) -> Result<(), Fail> {
    let rows: [(&[u8], (&str, usize, usize, &[u8])); 17] = [
        (b"const a :T = \"\";", ("text", 13, 13, b"")),
        (b"const a :T = \"# ;\t\";", ("text", 13, 13, b"# ;\t")),
        (
            b"const a :T = \"a\\n\\t\\r\\\\\\\"\\'\";",
            ("text", 13, 13, b"a\n\t\r\\\"'"),
        ),
        (
            b"const a :T = \"\\x41\\x0a\\xfF\";",
            ("text", 13, 13, b"A\n\xFF"),
        ),
        (b"const a :T = 0x\"\";", ("data", 13, 13, b"")),
        (
            b"const a :T = 0x\"de  aD00\";",
            ("data", 13, 13, b"\xDE\xAD\x00"),
        ),
        (b"const a :T = 0;", ("number", 13, 13, b"0")),
        (b"const a :T = 007;", ("number", 13, 13, b"007")),
        (b"const a :T = 90;", ("number", 13, 13, b"90")),
        (b"const a :T = true;", ("word", 13, 13, b"true")),
        (b"const a :T = aZ_9;", ("word", 13, 13, b"aZ_9")),
        (b"const a :T = embed#\n;", ("word", 13, 13, b"embed")),
        (b"const a :T = . b;", ("constant", 13, 15, b"b")),
        (b"const a :T = embed \"p\";", ("embed", 13, 19, b"p")),
        (b"const a :T = (x = 1);", ("struct", 13, 14, b"x")),
        (b"const a :T = [1];", ("list", 13, 13, b"item")),
        (b"const a :T = [];", ("list", 13, 13, b"")),
    ];
    for (text, want) in rows {
        match parse(rt.alloc(), text) {
            Ok(file) => {
                let found = file.get(0).and_then(value_of).map(told);
                assert!(rt; found == Some(want), "{text:?}");
            }
            Err(end) => assert!(rt; false, "{end:?}"),
        }
    }
    Ok(())
}

/// The places that a declaration keeps: of its name or digits, of its path or type, and of its
/// value.
fn places(decl: &Decl) -> (usize, usize, usize) {
    match decl {
        Decl::Using { name, path } => (name.place, path.place, 0),
        Decl::Id(digits) => (digits.place, 0, 0),
        Decl::Const { name, type_, value } => match type_.get(1) {
            Some(part) => (name.place, part.place, told(value).1),
            None => (name.place, 0, told(value).1),
        },
    }
}

#[test]
fn a_file_keeps_its_places(rt: HostRuntime) -> Result<(), Fail> {
    let text = b"using W = import \"/w\";\n@0x1f;\nconst c :W.Config = (a = [.b, embed \"p\"],);";
    match parse(rt.alloc(), text) {
        Ok(file) => {
            assert_eq!(rt; file.len(), 3);
            assert_eq!(rt; file.get(0).map(places), Some((6, 17, 0)));
            assert_eq!(rt; file.get(1).map(places), Some((24, 0, 0)));
            assert_eq!(rt; file.get(2).map(places), Some((36, 41, 50)));
        }
        Err(end) => assert!(rt; false, "{end:?}"),
    }
    Ok(())
}
