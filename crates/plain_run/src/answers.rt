ghost use Rattle.std.specs.Prelude.{◌≡◌, [], ◌∷◌, drop, length, slice_get, MatchOption};

use std::marker::Model;

/// What the outside answers, in order. Contracts see the answers that are left.
#[derive(Drop)]
pub struct Answers {
    list: Vec<i32>,
    next: usize,
}

impl Model for Answers {
    ghost use Rattle.std.specs.Prelude.{List, ℤ, drop, ◌≤◌, length};

    ghost Value = { List ℤ };

    ghost view = { λ a. drop a.next a.list.items };

    ghost invariant = { λ a. a.next ≤ length a.list.items };
}

impl Answers {
    /// These answers, all of them left. It takes no memory.
    pub fn new(list: Vec<i32>) -> Answers
        ensures { result ≡ list.items }
    {
        Answers { list, next: 0 }
    }

    /// Takes the next answer. None comes exactly where none is left. It takes no memory.
    pub fn next(&mut self) -> Option<i32>
        ensures { MatchOption result ((self.old ≡ []) × (self.new ≡ []))
            (λ answer. self.old ≡ answer ∷ self.new) }
    {
        if self.next == self.list.len() {
            return None;
        }
        let answer = self.list[self.next];
        self.next += 1;
        Some(answer)
    }

    /// How many answers are left. It takes no memory.
    pub fn left(&self) -> usize
        ensures { result ≡ length self.now }
    {
        self.list.len() - self.next
    }

    // The next answer, which stays.
    pub(crate) fn first(&self) -> Option<i32>
        ensures { MatchOption result (self.now ≡ [])
            (λ answer. self.now ≡ answer ∷ drop 1 self.now) }
    {
        if self.next == self.list.len() {
            return None;
        }
        Some(self.list[self.next])
    }

    // Takes the next answer, where there is one.
    pub(crate) fn skip(&mut self)
        ensures { self.new ≡ drop 1 self.old }
    {
        if self.next < self.list.len() {
            self.next += 1;
        }
    }
}
