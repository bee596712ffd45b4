//! A hall: a writer with its readers.

ghost use Rattle.std.specs.Prelude.{◌≡◌, ◌≤◌, ◌<◌, ◌⊎◌, ◌^◌, [], map, length, Err, IfOk, IfErr, All, vec_len};
ghost use Rattle.std.specs.Arc.{arc_value};
ghost use Rattle.jk_math.specs.Memory.{IsMemory};
ghost use Rattle.jk_math.specs.declared.fault.Fault.TheVariants.{WorkerFailed};
ghost use Rattle.jk_hall.specs.Writing.{list, waits, hall_of};
ghost use Rattle.jk_hall.specs.Reading.{Opens};

use crate::history::History;
use crate::looks::Looks;
use crate::place::Place;
use crate::reader::Reader;
use crate::rule::{Opens as Opening, Prefixes, Sight};
use crate::shown::{Change, Shown};
use crate::writer::{Writer, show};
use jk_math::Fault;
use jk_store::{Entry, HashedParts};
use jk_web::Cache;
use std::alloc::{AllocError, Global};
use std::sync::{Arc, Wait};

/// The most readers of a hall.
const MOST_WORKERS: usize = 64;

/// How many cuts a reader keeps.
const CUTS: usize = 16;

/// A catalogue that is shared: a writer with its readers.
pub struct Hall;

/// The same entries again.
fn copied(alloc: Global, entries: &[Arc<Entry>]) -> Result<Vec<Arc<Entry>>, AllocError>
    ensures { IfOk result (λ v. map arc_value v.items ≡ map arc_value entries.now) }
{
    let mut all = Vec::new(alloc);
    for entry in entries {
        all.push(Arc::try_clone(entry)?)?;
    }
    Ok(all)
}

/// The history that has these entries.
fn history_of<R: Wait>(rt: &R, entries: &[Arc<Entry>]) -> History
    requires { length entries.now < 2 ^ 63 }
    ensures { result.front.seen.log ≡ map arc_value entries.now }
{
    let mut history = History::new();
    for entry in entries {
        history.add(rt, entry);
    }
    history
}

/// A writer of these entries, with room for so many readers.
fn writer_of<R: Wait>(
    rt: &R,
    alloc: Global,
    readers: usize,
    entries: Vec<Arc<Entry>>,
) -> Result<Writer, Fault>
    requires { (0 < readers) × (readers ≤ 64) }
    ensures list { IfOk result (λ w. list w ≡ map arc_value entries.items) }
    ensures none_waits { IfOk result (λ w. waits w ≡ []) }
    ensures memory { IfErr result (λ e. IsMemory e) }
{
    let history = history_of(rt, entries.as_slice());
    let first = Shown {
        entries: copied(alloc, entries.as_slice())?,
        front: history.front.again(),
    };
    let second = Shown {
        entries,
        front: history.front.again(),
    };
    let inner: left_right::writer::Writer<Shown, Change, Sight, Prefixes> =
        left_right::writer::Writer::new(alloc, first, second, readers)?;
    let (inner, shown) = show(inner, rt);
    match shown {
        Ok(()) => Ok(Writer {
            history,
            waiting: Vec::new(alloc),
            sealed: true,
            inner,
        }),
        Err(e) => {
            drop(inner.take(rt));
            Err(e)
        }
    }
}

/// A reader that has seen and was told the published list.
///
/// WorkerFailed: it can't have a place.
fn reader_of(writer: &mut Writer, alloc: Global) -> Result<Reader, Fault>
    ensures opens { IfOk result (λ r. Opens (hall_of writer.new) (list writer.old) r) }
    ensures list { list writer.new ≡ list writer.old }
    ensures waits { waits writer.new ≡ waits writer.old }
    ensures hall { hall_of writer.new ≡ hall_of writer.old }
    ensures cause { IfErr result (λ e. IsMemory e ⊎ (e ≡ WorkerFailed)) }
{
    let cache = Cache::new(alloc, CUTS)?;
    let Ok(mut inner) = writer.inner.factory().reader() else {
        return Err(Fault::WorkerFailed);
    };
    inner.learn::<Opening>(writer.inner.tell::<Opening>());
    let told = writer.tell().front;
    Ok(Reader {
        place: Place {
            inner,
            cache,
            hashed: HashedParts::new(alloc),
            looks: Looks::none(),
        },
        told,
    })
}

/// So many readers, each of which has seen and was told the published list.
fn readers_of(writer: &mut Writer, alloc: Global, workers: usize) -> Result<Vec<Reader>, Fault>
    ensures count { IfOk result (λ v. vec_len v ≡ workers) }
    ensures readers { IfOk result (λ v. All (Opens (hall_of writer.new) (list writer.old)) v.items) }
    ensures list { list writer.new ≡ list writer.old }
    ensures waits { waits writer.new ≡ waits writer.old }
    ensures cause { IfErr result (λ e. IsMemory e ⊎ (e ≡ WorkerFailed)) }
{
    let mut readers = Vec::new(alloc);
    for _ in 0..workers {
        let made = reader_of(writer, alloc)?;
        readers.push(made)?;
    }
    Ok(readers)
}

impl Hall {
    /// A writer of these entries and so many readers.
    ///
    /// BadParameters: other than 1 to 64 readers, which is judged before all else. WorkerFailed: a
    /// reader can't have a place.
    pub fn new<R: Wait>(
        rt: &R,
        alloc: Global,
        workers: usize,
        entries: Vec<Arc<Entry>>,
    ) -> Result<(Writer, Vec<Reader>), Fault>
        ensures list { IfOk result (λ h. list h.0 ≡ map arc_value entries.items) }
        ensures none_waits { IfOk result (λ h. waits h.0 ≡ []) }
        ensures count { IfOk result (λ h. vec_len h.1 ≡ workers) }
        ensures readers { IfOk result (λ h. All (Opens (hall_of h.0) (map arc_value entries.items)) h.1.items) }
        ensures range { (1 ≤ workers → workers ≤ 64 → ⊥) → result ≡ Err Fault.BadParameters }
        ensures cause { 1 ≤ workers → workers ≤ 64 → IfErr result (λ e. IsMemory e ⊎ (e ≡ WorkerFailed)) }
    {
        if workers == 0 || workers > MOST_WORKERS {
            return Err(Fault::BadParameters);
        }
        let mut writer = writer_of(rt, alloc, workers, entries)?;
        match readers_of(&mut writer, alloc, workers) {
            Ok(readers) => Ok((writer, readers)),
            Err(e) => {
                writer.close(rt);
                Err(e)
            }
        }
    }
}
