//! What no clause says: that the grammar and its faults are those of ECMA-262 and of
//! `docs/SCRIPTS.md`. Expected values are those of these two.

mod ends;
mod faults;
mod forms;
mod nesting;
mod words;

use crate::{ScriptEnd, parse};
use js_lex::{ScriptFault, ScriptKind, same_text};
use std::alloc::Global;
use std::process::Abort;
use std::test::Fail;
use wd_base::{NoMemory, Units, units_of};

/// What is told of a script.
#[derive(Clone, Copy, Debug)]
enum Told {
    /// a tree of so many items
    Items(usize),
    /// `Syntax` at this place
    Syntax(usize),
    /// `LeftOut` at this place, with this word
    LeftOut(usize, &'static str),
}

fn is_fault(fault: &ScriptFault, expected: Told) -> bool {
    match (fault.kind, expected) {
        (ScriptKind::Syntax, Told::Syntax(place)) => fault.place == place && fault.word.len() == 0,
        (ScriptKind::LeftOut, Told::LeftOut(place, word)) => {
            fault.place == place && same_text(fault.word.as_slice(), word.as_bytes())
        }
        _ => false,
    }
}

/// Whether this is told of the script.
fn is_told(alloc: Global, units: &Units, expected: Told) -> Result<bool, NoMemory> {
    match parse(alloc, units) {
        Ok(tree) => match expected {
            Told::Items(count) => Ok(tree.len() == count),
            _ => Ok(false),
        },
        Err(ScriptEnd::Fault(fault)) => Ok(is_fault(&fault, expected)),
        Err(ScriptEnd::NoMemory) => Err(NoMemory),
    }
}

/// Of each script this is told.
fn check(rt: &impl Abort, alloc: Global, rows: &[(&str, Told)]) -> Result<(), Fail> {
    for (script, expected) in rows {
        let units = units_of(alloc, script.as_bytes())?;
        assert!(rt;
            is_told(alloc, &units, *expected)?,
            "{script}: {expected:?}"
        );
    }
    Ok(())
}
