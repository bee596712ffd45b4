//! Names of images whose files wait to be opened.

ghost use Rattle.std.specs.Prelude.{◌≡◌, ◌∷◌, ℕ, List, true, map, IfSome, IfNone, IsSomeAnd, OnOk};
ghost use Rattle.std.specs.BTreeSet.{contains_text};
ghost use Rattle.std.specs.String.{string_bytes};
ghost use Rattle.jk_serve.specs.Asking.{asked_too, asked_all};

use crate::asked::Asked;
use jk_math::Fault;
use std::alloc::{AllocError, Global};
use std::collections::BTreeSet;

/// The name of a file that is to be opened next.
#[derive(Drop)]
pub(crate) struct Next {
    pub(crate) name: String,
    // Whether somebody asked for it.
    pub(crate) is_asked: bool,
}

/// Names of images whose files wait to be opened: those that were asked for first, and then the
/// others in the order of their bytes.
#[derive(Drop)]
pub(crate) struct Waiting {
    names: BTreeSet<String>,
    asked: Asked,
}

impl Waiting {
    /// None.
    pub(crate) fn none(alloc: Global) -> Waiting {
        Waiting {
            names: BTreeSet::new(alloc),
            asked: Asked::none(alloc),
        }
    }

    /// Lets a name wait.
    pub(crate) fn add(&mut self, name: String) -> Result<(), Fault> {
        self.names.insert(name)?;
        Ok(())
    }

    /// This was asked for. One that doesn't wait is passed over.
    fn ask_one(&mut self, name: String) -> Result<(), AllocError>
        ensures asked { OnOk result (map string_bytes self.new.asked.names.items
            ≡ asked_too (contains_text self.old.names) (string_bytes name)
            (map string_bytes self.old.asked.names.items)) }
        ensures names { self.new.names ≡ self.old.names }
    {
        if self.names.contains(name.as_str()) {
            return self.asked.put(name);
        }
        Ok(())
    }

    /// These were asked for. Those that don't wait are passed over, and of the others the last 16 are
    /// kept, each once.
    pub(crate) fn ask(&mut self, names: Vec<String>) -> Result<(), AllocError>
        ensures asked { OnOk result (map string_bytes self.new.asked.names.items
            ≡ asked_all (contains_text self.old.names) (map string_bytes names.items)
            (map string_bytes self.old.asked.names.items)) }
        ensures names { OnOk result (self.new.names ≡ self.old.names) }
    {
        for name in names {
            self.ask_one(name)?;
        }
        Ok(())
    }

    /// The next name, which waits no longer.
    pub(crate) fn next(&mut self) -> Option<Next>
        ensures waited { IfSome result (λ n. contains_text self.old.names (string_bytes n.name) ≡ true) }
        // What was asked for first is next, if it waits.
        ensures asked { (n : List ℕ) (rest : List (List ℕ)) → map string_bytes self.old.asked.names.items ≡ n ∷ rest
            → contains_text self.old.names n ≡ true
            → IsSomeAnd result (λ r. (string_bytes r.name ≡ n) × (r.is_asked ≡ true)) }
    {
        if let Some(name) = self.asked_first() {
            return Some(Next {
                name,
                is_asked: true,
            });
        }
        let name = self.names.pop_first()?;
        Some(Next {
            name,
            is_asked: false,
        })
    }

    /// The name that was asked for first, if it still waits: then it waits no longer.
    fn asked_first(&mut self) -> Option<String>
        ensures some { IfSome result (λ n. contains_text self.old.names (string_bytes n) ≡ true) }
        ensures first { (n : List ℕ) (rest : List (List ℕ)) → map string_bytes self.old.asked.names.items ≡ n ∷ rest
            → contains_text self.old.names n ≡ true → IsSomeAnd result (λ r. string_bytes r ≡ n) }
        ensures none { IfNone result (self.new.names ≡ self.old.names) }
    {
        let name = self.asked.next()?;
        if self.names.remove(name.as_str()) {
            return Some(name);
        }
        None
    }

    /// How many wait.
    pub(crate) fn len(&self) -> usize {
        self.names.len()
    }

    /// None waits any longer.
    pub(crate) fn clear(&mut self) {
        self.names.clear();
        self.asked.clear();
    }
}
