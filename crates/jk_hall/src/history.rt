//! The one history of all entries, published or waiting, and the beginnings of it that are known.
ghost use Rattle.std.specs.Prelude.{◌≡◌, ◌-◌, ◌^◌, ◌<◌, ◌⊎◌, [], ◌∷◌, ◌++◌, length, IsTrue, MatchBool};
ghost use Rattle.std.specs.Arc.{arc_value};
ghost use mathlib.Core.List.{IsPrefix};
ghost use Rattle.jk_hall.specs.Rules.{head_of};

use jk_store::Entry;
use logbook::{Gain, Offer, Plain, Play, Rule, Seen, Start, Word};
use std::sync::{Arc, Wait};

/// The word is the length of the history.
pub struct Law;

impl Rule<Entry, u64> for Law {
    ghost use Rattle.std.specs.Prelude.{[]};
    ghost use base.Fml.{ftrue};
    ghost use Rattle.jk_hall.specs.Rules.{IsKept};

    ghost holds = { λ cells log. IsKept cells log };

    ghost first = { [] };

    ghost hinted = { λ n log. Unit {0} };

    ghost shows = { λ log. [] };

    ghost keeps = { λ names log. ftrue };

    ghost moves = { λ ask before after answer. Unit {0} };
}

/// Callers trade nothing.
pub struct Nothing;

impl Gain<Entry, u64> for Nothing {
    ghost use base.Fml.{ftrue};

    ghost after = { λ names about answer. ftrue };
}

/// A step that adds an entry.
pub struct Add;

impl Play<Entry, u64> for Add {
    ghost use Rattle.jk_hall.specs.Rules.{Adds};

    ghost then = { Adds };
}

impl Plain<Arc<Entry>, Entry, u64> for Add {
    ghost use Rattle.std.specs.Prelude.{None};
    ghost use Rattle.std.specs.Arc.{arc_value};

    ghost ask = { λ entry. arc_value entry };

    ghost state = { λ entry. None };
}

/// A beginning of the history that was seen.
#[derive(Drop)]
pub struct Front {
    count: u64,
    pub seen: Seen<Entry, u64, Law>,
    ghost count_is: { count ≡ length seen.log },
}

impl Front {
    pub fn len(&self) -> u64
        ensures { result ≡ length self.now.seen.log }
    {
        self.count
    }

    /// A copy.
    pub fn again(&self) -> Front
        ensures { result ≡ self.now }
    {
        Front {
            count: self.count,
            seen: self.seen.again(),
        }
    }

    /// The longer of two fronts of one history, which the other begins.
    pub fn longer(&self, other: &Front) -> Front
        requires { other.now.seen.book ≡ self.now.seen.book }
        ensures one { (result ≡ self.now) ⊎ (result ≡ other.now) }
        ensures book { result.seen.book ≡ self.now.seen.book }
        ensures this { IsPrefix self.now.seen.log result.seen.log }
        ensures that { IsPrefix other.now.seen.log result.seen.log }
    {
        let mut both = self.seen.again();
        both.learn(&other.seen);
        if self.count < other.count {
            other.again()
        } else {
            self.again()
        }
    }

    /// Whether the other front of one history begins with this one. It does where it is no shorter.
    pub fn begins(&self, other: &Front) -> bool
        requires { other.now.seen.book ≡ self.now.seen.book }
        ensures { MatchBool result (IsPrefix self.now.seen.log other.now.seen.log)
            (length other.now.seen.log < length self.now.seen.log) }
    {
        let both = self.longer(other);
        both.len() == other.len()
    }

    /// Adds an entry to all that was seen, and says whether it did.
    fn grow(&mut self, head: &Word<Entry, u64, Law>, entry: &Arc<Entry>) -> bool
        requires head { head.now ≡ head_of self.old.seen.book }
        requires room { length self.old.seen.log < 2 ^ 64 - 1 }
        ensures log { IsTrue result → self.new.seen.log ≡ self.old.seen.log ++ arc_value entry.now ∷ [] }
        ensures book { self.new.seen.book ≡ self.old.seen.book }
    {
        let mut offer: Offer<Entry, u64, Law, Nothing> = self
            .seen
            .plain::<Nothing, Arc<Entry>, Add>(entry);
        let mut pen = self.seen.no_pen();
        let count = self.count;
        let found = head.compare_exchange::<Add, Nothing>(
            count,
            count + 1,
            &mut self.seen,
            &mut offer,
            &mut pen,
        );
        self.count = if found == count { count + 1 } else { found };
        found == count
    }
}

/// The whole history, and the right to add to it, which one owner has.
#[derive(Drop)]
pub struct History {
    head: Word<Entry, u64, Law>,
    pub front: Front,
    ghost head_is: { head ≡ head_of front.seen.book },
}

impl History {
    pub fn new() -> History
        ensures { result.front.seen.log ≡ [] }
    {
        let (seen, mut first, _second) = Seen::open(Start::alone(), 0, 0);
        History {
            head: Word::tracked(0, &mut first),
            front: Front { count: 0, seen },
        }
    }

    /// Adds an entry. Nobody else has the word, so that the first turn does it.
    pub fn add<R: Wait>(&mut self, rt: &R, entry: &Arc<Entry>)
        requires { length self.old.front.seen.log < 2 ^ 64 - 1 }
        ensures log { self.new.front.seen.log ≡ self.old.front.seen.log ++ arc_value entry.now ∷ [] }
        ensures book { self.new.front.seen.book ≡ self.old.front.seen.book }
    {
        let next = grown(rt, &self.head, &self.front, entry);
        self.front = next;
    }
}

fn grown<R: Wait>(rt: &R, head: &Word<Entry, u64, Law>, front: &Front, entry: &Arc<Entry>) -> Front
    requires head { head.now ≡ head_of front.now.seen.book }
    requires room { length front.now.seen.log < 2 ^ 64 - 1 }
    ensures log { result.seen.log ≡ front.now.seen.log ++ arc_value entry.now ∷ [] }
    ensures book { result.seen.book ≡ front.now.seen.book }
{
    let mut next = front.again();
    for _ in rt.forever() {
        if next.grow(head, entry) {
            break;
        }
        next = front.again();
    }
    next
}
