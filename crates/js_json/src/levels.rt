ghost use Rattle.std.specs.Prelude.{◌≡◌, ◌<◌, ◌≤◌, [], ◌∷◌, length, MatchOption};

use arrayvec::ArrayVec;
use std::marker::Model;

/// How many arrays and objects may be open at one place.
pub const MOST_LEVELS: usize = 64;

/// What is open.
#[derive(Clone, Copy, Debug, Default, PartialEq, Eq)]
pub enum Level {
    #[default]
    Array,
    Object,
}

/// What is open at a place, the innermost first. It takes no memory.
#[derive(Drop)]
pub struct Levels {
    open: ArrayVec<Level, 64>,
}

impl Model for Levels {
    ghost use Rattle.std.specs.Prelude.{List, ◌≤◌, length, reverse};
    ghost use Rattle.js_json.specs.declared.levels.Level.{Level as Declared};

    ghost Value = { List Declared };

    ghost view = { λ l. reverse l.open.items };

    ghost invariant = { λ l. length l.open.items ≤ 64 };
}

impl Levels {
    /// Nothing is open.
    pub fn new() -> Levels
        ensures { result ≡ [] }
    {
        Levels {
            open: ArrayVec::new(),
        }
    }

    /// How many are open.
    #[tactic(auto, using(crate::proofs::Back::length_back))]
    pub fn len(&self) -> usize
        ensures { result ≡ length self.now }
    {
        self.open.len()
    }

    /// One more is open, the innermost.
    #[tactic(auto, using(crate::proofs::Back::reverse_last, crate::proofs::Back::length_back))]
    pub fn with(self, level: Level) -> Levels
        requires { length self < 64 }
        ensures { result ≡ level ∷ self }
    {
        let mut open = self.open;
        open.push(level);
        Levels { open }
    }

    /// Takes the innermost away.
    #[tactic(auto, using(crate::proofs::Back::reverse_last))]
    pub fn pop(&mut self) -> Option<Level>
        ensures { MatchOption result ((self.old ≡ []) × (self.new ≡ [])) (λ x. self.old ≡ x ∷ self.new) }
    {
        self.open.pop()
    }
}
