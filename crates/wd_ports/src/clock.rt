ghost use Rattle.std.specs.Prelude.{◌≡◌, ℕ, ◌≤◌, length, nat_le};
ghost use Rattle.wd_ports.specs.Times.{happened, next_mark};

use std::marker::Model;
use wd_base::Numbers;

/// The marks of events in order, the mark that was reached, and how many events have happened.
#[derive(Debug, Drop)]
pub struct Clock {
    due: Numbers,
    mark: u64,
    count: usize,
}

impl Model for Clock {
    ghost use Rattle.std.specs.Prelude.{◌≡◌};
    ghost use Rattle.wd_ports.specs.Times.{Times, happened};

    ghost Value = { Times };

    ghost view = { λ c. record { due = c.due; mark = c.mark } };

    ghost invariant = { λ c. c.count ≡ happened (record { due = c.due; mark = c.mark }) };
}

/// How many events at the front have marks that are reached. The first `from` have.
fn count_front(due: &[u64], mark: u64, from: usize) -> usize
    requires { from ≤ happened (record { due = due.now; mark = mark }) }
    ensures { result ≡ happened (record { due = due.now; mark = mark }) }
{
    for at in from..due.len() {
        if due[at] > mark {
            return at;
        }
    }
    due.len()
}

impl Clock {
    /// The clock of these marks, at mark 0.
    pub fn new(due: Numbers) -> Clock
        ensures { result ≡ record { due = due; mark = 0 } }
    {
        let count = count_front(due.as_slice(), 0, 0);
        Clock {
            due,
            mark: 0,
            count,
        }
    }

    /// Raises the mark by one.
    pub fn tick(&mut self)
        ensures { self.new ≡ next_mark self.old }
    {
        self.mark = self.mark.saturating_add(1);
        self.count = count_front(self.due.as_slice(), self.mark, self.count);
    }

    /// The mark that was reached.
    pub fn mark(&self) -> u64
        ensures { result ≡ self.now.mark }
    {
        self.mark
    }

    /// How many events have happened.
    pub fn happened(&self) -> usize
        ensures { result ≡ happened self.now }
    {
        self.count
    }

    /// Each event has happened.
    pub fn is_over(&self) -> bool
        ensures { result ≡ nat_le (length self.now.due) (happened self.now) }
    {
        self.due.len() <= self.count
    }
}
