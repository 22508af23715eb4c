//! What scripts are refused for. What is expected was worked out by hand.

use crate::{ScriptRefusal, check};
use js_lex::ScriptKind;
use js_scope::EarlyKind;
use std::test::Fail;
use wd_base::units_of;

/// The kind and the place that a refusal tells.
fn told(refusal: &ScriptRefusal) -> (&'static str, usize) {
    match refusal {
        ScriptRefusal::Grammar(fault) => match fault.kind {
            ScriptKind::Syntax => ("Syntax", fault.place),
            ScriptKind::LeftOut => ("LeftOut", fault.place),
        },
        ScriptRefusal::Early(fault) => match fault.kind {
            EarlyKind::DoubleName => ("DoubleName", fault.place),
            EarlyKind::ReturnOutside => ("ReturnOutside", fault.place),
            EarlyKind::AwaitOutside => ("AwaitOutside", fault.place),
            EarlyKind::BreakOutside => ("BreakOutside", fault.place),
        },
    }
}

#[test]
fn what_scripts_are_refused_for(rt: HostRuntime) -> Result<(), Fail> {
    // a script, the kind of its fault, and the fault's place
    let rows: [(&[u8], &str, usize); 16] = [
        (b"", "none", 0),
        (
            b"export default { async fetch(a) { return await a } };",
            "none",
            0,
        ),
        (b"while (a) break", "none", 0),
        (b"let a; { let a }", "none", 0),
        (b"export default {", "Syntax", 16),
        (b"class A {}", "LeftOut", 0),
        (b"\xEF\xBB\xBFa b", "Syntax", 2),
        (b"'\xC3\xA9' a", "Syntax", 4),
        (b"let a; let a;", "DoubleName", 11),
        (b"let a; let a; a b", "Syntax", 16),
        (b"{ return }", "ReturnOutside", 2),
        (b"a(await b)", "AwaitOutside", 2),
        (b"break", "BreakOutside", 0),
        (b"if (a) continue; else return", "BreakOutside", 7),
        (b"return; let a, a", "ReturnOutside", 0),
        (b"while (a) { () => { break } }", "BreakOutside", 20),
    ];
    let alloc = rt.alloc();
    for (script, kind, place) in rows {
        let units = units_of(alloc, script)?;
        let found = match &check(alloc, &units)? {
            Some(refusal) => told(refusal),
            None => ("none", 0),
        };
        assert_eq!(rt; (script, found), (script, (kind, place)));
    }
    Ok(())
}
