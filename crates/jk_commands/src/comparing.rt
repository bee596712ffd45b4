//! What differs between two lists of digests.

ghost use Rattle.std.specs.Prelude.{◌≡◌, ◌||◌, ◌++◌, ◌∷◌, [], ℕ, List, map, IfOk, IfErr, OnOk};
ghost use Rattle.std.specs.Option.{is_some, option_map};
ghost use Rattle.std.specs.BTreeMap.{get_by_text};
ghost use Rattle.std.specs.BTreeSet.{contains_text, keys};
ghost use Rattle.std.specs.List.{filter_map, cons_option, flat_map};
ghost use Rattle.std.specs.List.Sorted.{IsStrictlySortedBy};
ghost use Rattle.std.specs.Ordering.{nat_cmp};
ghost use Rattle.std.specs.Cmp.Lexicographic.{slice_cmp};
ghost use Rattle.std.specs.String.{string_bytes};
ghost use Rattle.jk_math.specs.Memory.{IsMemory};
ghost use Rattle.jk_commands.specs.Sums.{digest_of, change_of, AreDifferences};
ghost use Rattle.jk_commands.specs.Sums.{change_word, difference_text, told_of, pair_of};

use crate::sums::Sum;
use jk_math::Fault;
use std::alloc::{AllocError, Global};
use std::collections::{BTreeMap, BTreeSet};

/// What differs of a file.
#[derive(Clone, Copy, Debug, PartialEq, Eq)]
pub enum Change {
    /// It has another digest.
    Changed,
    /// It was there, and isn't.
    Missing,
    /// It is there, and wasn't.
    New,
}

impl Change {
    /// Its word.
    fn word(self) -> &'static str
        ensures { result.now ≡ change_word self }
    {
        match self {
            Change::Changed => "changed",
            Change::Missing => "missing",
            Change::New => "new",
        }
    }
}

/// A file of which something differs.
#[derive(Drop)]
pub struct Difference {
    pub name: String,
    pub change: Change,
}

/// The digest that a list has last of each file.
fn digests(alloc: Global, sums: &[Sum]) -> Result<BTreeMap<String, [u8; 32]>, Fault>
    ensures ok { IfOk result (λ m. (n : List ℕ) → get_by_text m n ≡ digest_of sums.now n) }
    ensures err { IfErr result IsMemory }
{
    let mut digests = BTreeMap::new(alloc);
    for sum in sums {
        digests.insert(sum.name.clone()?, sum.digest)?;
    }
    Ok(digests)
}

/// Puts the names of the files of a list among others.
fn add_names(names: &mut BTreeSet<String>, sums: &[Sum]) -> Result<(), Fault>
    ensures ok { OnOk result ((n : List ℕ)
        → contains_text names.new n ≡ (is_some (digest_of sums.now n) || contains_text names.old n)) }
    ensures err { IfErr result IsMemory }
{
    for sum in sums {
        names.insert(sum.name.clone()?)?;
    }
    Ok(())
}

/// What differs of a file, by its digests before and now.
fn change_of(earlier: Option<&[u8; 32]>, present: Option<&[u8; 32]>) -> Option<Change>
    ensures { result ≡ change_of (option_map (λ b. b.now) earlier.entry) (option_map (λ b. b.now) present.entry) }
{
    match (earlier, present) {
        (None, None) => None,
        (Some(_), None) => Some(Change::Missing),
        (None, Some(_)) => Some(Change::New),
        (Some(earlier), Some(present)) => {
            if earlier == present {
                None
            } else {
                Some(Change::Changed)
            }
        }
    }
}

/// Appends what differs of the file of a name, by its digests before and now, if anything does.
fn add_change(
    alloc: Global,
    name: &str,
    earlier: &BTreeMap<String, [u8; 32]>,
    present: &BTreeMap<String, [u8; 32]>,
    all: &mut Vec<Difference>,
) -> Result<(), Fault>
    ensures told { OnOk result (map pair_of all.new.items ≡ map pair_of all.old.items
        ++ cons_option (told_of (λ n. change_of (get_by_text earlier.now n) (get_by_text present.now n)) name.now) []) }
    ensures err { IfErr result IsMemory }
{
    if let Some(change) = change_of(earlier.get(name), present.get(name)) {
        all.push(Difference {
            name: String::from_str(alloc, name)?,
            change,
        })?;
    }
    Ok(())
}

/// What differs of the files of these names, by their digests before and now, in the order of the
/// names.
fn told(
    alloc: Global,
    names: &BTreeSet<String>,
    earlier: &BTreeMap<String, [u8; 32]>,
    present: &BTreeMap<String, [u8; 32]>,
) -> Result<Vec<Difference>, Fault>
    ensures told { IfOk result (λ v. map pair_of v.items
        ≡ filter_map (told_of (λ n. change_of (get_by_text earlier.now n) (get_by_text present.now n)))
        (map string_bytes (keys names.now))) }
    ensures ordered { IsStrictlySortedBy (slice_cmp nat_cmp) (map string_bytes (keys names.now)) }
    ensures err { IfErr result IsMemory }
{
    let mut all = Vec::new(alloc);
    for name in names.iter() {
        add_change(alloc, name.as_str(), earlier, present, &mut all)?;
    }
    Ok(all)
}

/// What differs between two lists of files, in the order of their names.
pub fn differences(alloc: Global, before: &[Sum], now: &[Sum]) -> Result<Vec<Difference>, Fault>
    ensures exact { IfOk result (λ v. AreDifferences before.now now.now v.items) }
    ensures err { IfErr result IsMemory }
{
    let mut names = BTreeSet::new(alloc);
    add_names(&mut names, before)?;
    add_names(&mut names, now)?;
    let earlier = digests(alloc, before)?;
    let present = digests(alloc, now)?;
    told(alloc, &names, &earlier, &present)
}

/// Appends the line of what differs of a file.
fn put_difference(text: &mut String, difference: &Difference) -> Result<(), AllocError>
    ensures { OnOk result (string_bytes text.new ≡ string_bytes text.old ++ difference_text difference.now) }
{
    text.push_str(difference.change.word())?;
    text.push_str(" ")?;
    text.push_str(difference.name.as_str())?;
    text.push_str("\n")
}

/// The lines that tell differences, each a word and the name of a file.
pub fn differences_text(alloc: Global, differences: &[Difference]) -> Result<String, AllocError>
    ensures { IfOk result (λ t. string_bytes t ≡ flat_map difference_text differences.now) }
{
    let mut text = String::new(alloc);
    for difference in differences {
        put_difference(&mut text, difference)?;
    }
    Ok(text)
}
