ghost use Rattle.std.specs.Prelude.{◌≡◌, Err};
ghost use Rattle.js_scope.specs.declared.fault.EarlyEnd.TheVariants as ends;
ghost use Rattle.js_scope.specs.Verdict.{top_scope, allows, around_in, entered, judge_name, judge_word, Judges};

use crate::fault::{EarlyEnd, EarlyFault, EarlyKind};
use crate::names::Names;
use crate::task::ScopeKind;
use js_tree::Name;
use std::alloc::Global;
use wd_base::NoMemory;

/// What stands around a piece of a script.
#[derive(Clone, Copy)]
pub(crate) struct Around {
    pub(crate) in_function: bool,
    pub(crate) is_async: bool,
    pub(crate) in_loop: bool,
}

impl Around {
    /// A fault of this kind is none here.
    fn allows(self, kind: EarlyKind) -> bool
        ensures { result ≡ allows self kind }
    {
        match kind {
            EarlyKind::DoubleName => false,
            EarlyKind::ReturnOutside => self.in_function,
            EarlyKind::AwaitOutside => self.is_async,
            EarlyKind::BreakOutside => self.in_loop,
        }
    }

    fn inside(self, how: ScopeKind) -> Around
        ensures { result ≡ around_in how self }
    {
        match how {
            ScopeKind::Block => self,
            ScopeKind::Loop => Around {
                in_function: self.in_function,
                is_async: self.is_async,
                in_loop: true,
            },
            ScopeKind::Function(is_async) => Around {
                in_function: true,
                is_async,
                in_loop: false,
            },
        }
    }
}

/// A scope: the names that it has so far, and what stands around it.
#[derive(Drop)]
pub(crate) struct Scope<'a> {
    pub(crate) names: Names<'a>,
    pub(crate) around: Around,
}

impl<'a> Scope<'a> {
    /// The scope of a script's top level. It takes no memory.
    pub(crate) fn top(alloc: Global) -> Scope<'a>
        ensures { result ≡ top_scope }
    {
        Scope {
            names: Names::new(alloc),
            around: Around {
                in_function: false,
                is_async: false,
                in_loop: false,
            },
        }
    }

    /// The scope within this one that is opened so. It takes no memory.
    pub(crate) fn entered(&self, alloc: Global, how: ScopeKind) -> Scope<'a>
        ensures { result ≡ entered how self.now }
    {
        Scope {
            names: Names::new(alloc),
            around: self.around.inside(how),
        }
    }

    /// Adds a name.
    pub(crate) fn declare(&mut self, name: &'a Name) -> Result<(), EarlyEnd>
        ensures { Judges (judge_name self.old name.now) self.new result }
    {
        match self.names.add(name.units.as_slice()) {
            Ok(true) => Ok(()),
            Ok(false) => Err(EarlyEnd::Fault(EarlyFault {
                kind: EarlyKind::DoubleName,
                place: name.place,
            })),
            Err(NoMemory) => Err(EarlyEnd::NoMemory),
        }
    }

    /// Refuses a word that nothing around allows. It takes no memory.
    pub(crate) fn check(&self, word: EarlyFault) -> Result<(), EarlyEnd>
        ensures judged { Judges (judge_word self.now word) self.now result }
        ensures certain { result ≡ Err ends.NoMemory → ⊥ }
    {
        if self.around.allows(word.kind) {
            Ok(())
        } else {
            Err(EarlyEnd::Fault(word))
        }
    }
}
