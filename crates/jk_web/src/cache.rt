//! Windows that are kept.

ghost use Rattle.std.specs.Prelude.{◌≡◌, ◌≤◌, ◌⊎◌, List, ℕ, [], length, IfOk, IfSome, IfNone, IfErr};
ghost use Rattle.jk_math.specs.Memory.{IsMemory};
ghost use Rattle.jk_web.specs.Cuts.{Within, Has, kept_cut};
ghost use Rattle.jk_web.specs.Keys.{asked_of, kept_in, most_kept};

use crate::windows::Windows;
use jk_catalogue::Catalogue;
use jk_math::Fault;
use jk_window::View;
use lru::LruCache;
use std::alloc::{AllocError, Global};
use std::marker::Model;
use std::num::NonZeroUsize;

/// The most bytes of a window that is kept.
const MOST: usize = 1 << 20;

/// What a window is kept under: the name of its image, and its numbers.
#[derive(PartialEq, Eq, Hash, Drop)]
struct CutKey {
    name: Vec<u8>,
    reduce: u32,
    x: u32,
    y: u32,
    width: u32,
    height: u32,
    layers: Option<u32>,
}

/// The windows that were asked for last, so many at most and none of more than 2^20 bytes.
///
/// A contract sees the kept cuts, the one that was asked for last in front. Which they are is
/// promised nowhere.
#[derive(Drop)]
pub struct Cache {
    cuts: LruCache<CutKey, Vec<u8>>,
}

impl Model for Cache {
    ghost use Rattle.std.specs.Prelude.{List};
    ghost use Rattle.jk_web.specs.Cuts.{KeptCut};

    ghost Value = { List KeptCut };

    ghost use Rattle.jk_web.specs.Keys.{kept_in, AreSmall};

    ghost view = { λ c. kept_in c.cuts.entries };

    ghost invariant = { λ c. AreSmall (kept_in c.cuts.entries) };
}

impl Cache {
    /// A cache of so many windows at most.
    pub fn new(alloc: Global, capacity: usize) -> Result<Cache, Fault>
        requires { 1 ≤ capacity }
        ensures empty { IfOk result (λ c. c ≡ []) }
        ensures memory { IfErr result (λ e. IsMemory e) }
    {
        let Some(capacity) = NonZeroUsize::new(capacity) else {
            unreachable!();
        };
        Ok(Cache {
            cuts: LruCache::new(alloc, capacity)?,
        })
    }
}

/// The key of a window.
fn key_of(alloc: Global, name: &[u8], asked: View) -> Result<CutKey, AllocError>
    ensures name { IfOk result (λ k. k.name.items ≡ name.now) }
    ensures asked { IfOk result (λ k. asked_of k ≡ asked) }
{
    Ok(CutKey {
        name: Vec::from_slice(alloc, name)?,
        reduce: asked.reduce,
        x: asked.x,
        y: asked.y,
        width: asked.width,
        height: asked.height,
        layers: asked.layers,
    })
}

/// The same bytes again.
fn copy_of(bytes: &Vec<u8>) -> Result<Vec<u8>, AllocError>
    ensures { IfOk result (λ v. v.items ≡ bytes.now.items) }
{
    bytes.clone()
}

/// A copy of the window that is kept under a key, which is the last one that was asked for then.
fn look(cuts: &mut LruCache<CutKey, Vec<u8>>, key: &CutKey) -> Result<Option<Vec<u8>>, AllocError>
    ensures found { IfOk result (λ o. IfSome o
        (λ v. Has (kept_in cuts.old.entries) key.now.name.items (asked_of key.now) v.items)) }
    ensures none { IfOk result (λ o. IfNone o ((b : List ℕ)
        → Has (kept_in cuts.old.entries) key.now.name.items (asked_of key.now) b → ⊥)) }
    ensures kept { Within (Has (kept_in cuts.new.entries)) (Has (kept_in cuts.old.entries)) }
{
    let Some(found) = cuts.peek(key) else {
        return Ok(None);
    };
    let copy = copy_of(found)?;
    cuts.promote(key);
    Ok(Some(copy))
}

/// Keeps a window, if memory allows.
fn keep(cuts: &mut LruCache<CutKey, Vec<u8>>, key: CutKey, cut: Vec<u8>)
    ensures { (n : List ℕ) (a : View) (b : List ℕ) → Has (kept_in cuts.new.entries) n a b
        → Has (kept_in cuts.old.entries) n a b ⊎ (kept_cut n a b ≡ kept_cut key.name.items (asked_of key) cut.items) }
{
    let _ = cuts.put(key, cut);
}

/// Keeps a copy of a window that isn't too long, if memory allows.
fn store(cuts: &mut LruCache<CutKey, Vec<u8>>, key: CutKey, cut: &Vec<u8>)
    ensures { (n : List ℕ) (a : View) (b : List ℕ) → Has (kept_in cuts.new.entries) n a b
        → Has (kept_in cuts.old.entries) n a b
        ⊎ ((kept_cut n a b ≡ kept_cut key.name.items (asked_of key) cut.now.items)
        × (length cut.now.items ≤ most_kept)) }
{
    if cut.len() > MOST {
        return;
    }
    if let Ok(copy) = copy_of(cut) {
        keep(cuts, key, copy);
    }
}

impl<C: Catalogue> Windows<C> for Cache {
    ghost use Rattle.jk_web.specs.Images.{IsOtherMade};
    ghost use Rattle.jk_web.specs.Cuts.{Has};

    ghost has = { Has };

    ghost others = { IsOtherMade C.made };

    fn window(
        &mut self,
        alloc: Global,
        catalogue: &mut C,
        name: &[u8],
        asked: View,
    ) -> Result<Vec<u8>, Fault> {
        let key = key_of(alloc, name, asked)?;
        if let Some(kept) = look(&mut self.cuts, &key)? {
            return Ok(kept);
        }
        let cut = catalogue.window(alloc, name, asked)?;
        store(&mut self.cuts, key, &cut);
        Ok(cut)
    }
}
