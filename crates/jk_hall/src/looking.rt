//! A look at what is shown.

ghost use Rattle.std.specs.Prelude.{◌≡◌, ◌<◌, ◌⊎◌, true, List, ℕ, All, length, IfOk, OnOk, IfErr};
ghost use Rattle.left_right.specs.Sides.{view};
ghost use mathlib.Core.List.{IsPrefix};
ghost use Rattle.jk_hall.specs.Sights.{stamp_of, listed};
ghost use Rattle.jk_math.specs.Memory.{IsMemory};
ghost use Rattle.jk_math.specs.declared.fault.Fault.TheVariants.{WorkerFailed};
ghost use Rattle.jk_web.specs.Resources.{IsPathSegment};
ghost use Rattle.jk_web.specs.Cuts.{IsHit, Has};
ghost use Rattle.jk_hall.specs.Looking.{IsLook, IsInVain};
ghost use Rattle.jk_hall.specs.Replying.{KeepsOn, KeptOn, Replies};

use crate::history::Front;
use crate::place::Place;
use crate::shown::Shown;
use jk_math::Fault;
use jk_store::{HashedParts, Shelf, ShownWithParts};
use jk_web::{Cache, Reply, Request, answer_with};
use std::alloc::Global;

/// The reply to a request from what is shown, if it begins with what was told.
///
/// WorkerFailed: it is shorter.
fn answer_shown<S: Shelf>(
    alloc: Global,
    told: &Front,
    shown: &Shown,
    request: &Request,
    shelf: &mut S,
    hashed: &mut HashedParts,
    cache: &mut Cache,
) -> Result<Reply, Fault>
    requires { shown.now.front.seen.book ≡ told.now.seen.book }
    ensures begins { OnOk result (IsPrefix told.now.seen.log shown.now.front.seen.log) }
    ensures reply { IfOk result (λ r. Replies S.keeps S.failed S.gave S.gave_at (listed shown.now) shelf.old shelf.new
        cache.old request.now r) }
    ensures err { IfErr result (λ e. IsMemory e
        ⊎ ((e ≡ WorkerFailed) × (length shown.now.front.seen.log < length told.now.seen.log))) }
    ensures keeps { KeepsOn S.keeps shelf.old shelf.new }
    ensures cuts { KeptOn S.keeps (listed shown.now) (listed shown.now) shelf.old cache.old cache.new }
    ensures unread { (names : List (List ℕ)) → All IsPathSegment names → IsHit (Has cache.old) names request.now
        → shelf.new ≡ shelf.old }
{
    if !told.begins(&shown.front) {
        return Err(Fault::WorkerFailed);
    }
    let mut images = ShownWithParts {
        entries: shown.entries.as_slice(),
        shelf,
        hashed,
    };
    answer_with(alloc, request, &mut images, cache)
}

/// What is asked of a place.
pub(crate) struct Ask<'a, S> {
    pub(crate) alloc: Global,
    pub(crate) told: &'a Front,
    pub(crate) request: &'a Request,
    pub(crate) shelf: &'a mut S,
}

/// The reply to a request from what is shown, and the shelf again.
///
/// WorkerFailed: it can't be looked at, or is shorter than what was told.
pub(crate) fn look<'a, S: Shelf>(
    place: Place,
    ask: Ask<'a, S>,
) -> (Place, (Result<Reply, Fault>, &'a mut S))
    requires known { (view place.inner.place).known ≡ true }
    requires stamped { (view place.inner.place).stamp ≡ stamp_of ask.told.now.seen.book }
    ensures begins { IfOk result.1.0 (λ r. IsPrefix ask.entry.told.now.seen.log (view result.0.inner.place).seen) }
    ensures reply { IfOk result.1.0 (λ r. Replies S.keeps S.failed S.gave S.gave_at (view result.0.inner.place).seen
        ask.entry.shelf.now result.1.1.now place.cache ask.entry.request.now r) }
    ensures looks { IfOk result.1.0 (λ r. IsLook place.looks result.0.looks) }
    ensures err { IfErr result.1.0 (λ e. IsMemory e ⊎ ((e ≡ WorkerFailed)
        × IsInVain place.looks ask.entry.told.now.seen.log (view result.0.inner.place).seen result.0.looks)) }
    ensures seen { IsPrefix (view place.inner.place).seen (view result.0.inner.place).seen }
    ensures known { (view result.0.inner.place).known ≡ true }
    ensures stamped { (view result.0.inner.place).stamp ≡ (view place.inner.place).stamp }
    ensures same_shelf { result.1.1.ghost_name ≡ ask.entry.shelf.ghost_name }
    ensures keeps { KeepsOn S.keeps ask.entry.shelf.now result.1.1.now }
    ensures cuts { KeptOn S.keeps (view place.inner.place).seen (view result.0.inner.place).seen ask.entry.shelf.now
        place.cache result.0.cache }
    ensures unread { (names : List (List ℕ)) → All IsPathSegment names → IsHit (Has place.cache) names ask.entry.request.now
        → result.1.1.now ≡ ask.entry.shelf.now }
{
    let Ask {
        alloc,
        told,
        request,
        shelf,
    } = ask;
    let Place {
        inner,
        mut cache,
        mut hashed,
        mut looks,
    } = place;
    match looks.look(inner) {
        Ok(reading) => {
            let shown = reading.get();
            let reply = answer_shown(alloc, told, shown, request, shelf, &mut hashed, &mut cache);
            let inner = reading.leave();
            let place = Place {
                inner,
                cache,
                hashed,
                looks,
            };
            (place, (reply, shelf))
        }
        Err(inner) => {
            let place = Place {
                inner,
                cache,
                hashed,
                looks,
            };
            (place, (Err(Fault::WorkerFailed), shelf))
        }
    }
}
