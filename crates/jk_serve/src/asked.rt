//! Names that were asked for.

ghost use Rattle.std.specs.Prelude.{◌≡◌, ◌+◌, ◌≤◌, ◌∷◌, [], length, map, OnOk, IfSome, IfNone};
ghost use Rattle.std.specs.String.{string_bytes};
ghost use Rattle.jk_store.specs.Files.{is_among};
ghost use Rattle.jk_serve.specs.Asking.{most_asked, with_room, with_asked};

use std::alloc::{AllocError, Global};
use std::mem;

/// How many names are kept at most.
const MOST_ASKED: usize = 16;

/// The last names that were asked for, each once, 16 at most, in the order in which they were.
#[derive(Drop)]
pub(crate) struct Asked {
    names: Vec<String>,
    ghost few: { length names.items ≤ most_asked },
}

impl Asked {
    /// None.
    pub(crate) fn none(alloc: Global) -> Asked
        ensures { result.names.items ≡ [] }
    {
        Asked {
            names: Vec::new(alloc),
        }
    }

    /// Whether a name is kept.
    fn has(&self, name: &str) -> bool
        ensures { result ≡ is_among name.now (map string_bytes self.now.names.items) }
    {
        for kept in &self.names {
            if name == kept.as_str() {
                return true;
            }
        }
        false
    }

    /// Lets the first name go, where there are as many as may be.
    fn make_room(&mut self)
        ensures room { map string_bytes self.new.names.items ≡ with_room (map string_bytes self.old.names.items) }
        ensures less { length self.new.names.items + 1 ≤ most_asked }
    {
        if MOST_ASKED <= self.names.len() {
            self.names.remove(0);
        }
    }

    /// Keeps a name, if it isn't kept yet.
    pub(crate) fn put(&mut self, name: String) -> Result<(), AllocError>
        ensures ok { OnOk result (map string_bytes self.new.names.items
            ≡ with_asked (string_bytes name) (map string_bytes self.old.names.items)) }
    {
        if self.has(name.as_str()) {
            return Ok(());
        }
        self.make_room();
        Ok(self.names.push(name)?)
    }

    /// The first name, which is kept no longer.
    pub(crate) fn next(&mut self) -> Option<String>
        ensures some { IfSome result (λ n. map string_bytes self.old.names.items
            ≡ string_bytes n ∷ map string_bytes self.new.names.items) }
        ensures none { IfNone result (self.old.names.items ≡ []) }
    {
        if self.names.is_empty() {
            return None;
        }
        Some(self.names.remove(0))
    }

    /// None is kept any longer.
    pub(crate) fn clear(&mut self)
        ensures { self.new.names.items ≡ [] }
    {
        self.names.clear();
    }

    /// All names, which are kept no longer.
    pub(crate) fn take(&mut self, alloc: Global) -> Vec<String>
        ensures all { result.items ≡ self.old.names.items }
        ensures none { self.new.names.items ≡ [] }
    {
        mem::replace(&mut self.names, Vec::new(alloc))
    }
}
