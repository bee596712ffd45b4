//! The writer.

ghost use Rattle.std.specs.Prelude.{◌≡◌, true, [], ◌++◌, map, drop, OnOk, OnErr, IfErr};
ghost use Rattle.std.specs.Arc.{arc_value};
ghost use Rattle.left_right.specs.Sides.{view};
ghost use mathlib.Core.List.{IsPrefix};
ghost use Rattle.jk_math.specs.Memory.{IsMemory};
ghost use Rattle.jk_store.specs.Catalogue.{is_listed};
ghost use Rattle.jk_hall.specs.Sights.{listed, stamp_of, front_stamp, sight_of, coming, IsTied};

use crate::appending::append;
use crate::history::History;
use crate::rule::{Prefixes, Sees, Sight};
use crate::shown::{Change, Shown};
use crate::told::Told;
use core::mem::replace_with;
use jk_math::Fault;
use jk_store::Entry;
use std::alloc::AllocError;
use std::sync::{Arc, Wait};

/// What publishes entries. It can't be dropped: it is ended by `close`.
pub struct Writer {
    pub(crate) history: History,
    pub(crate) waiting: Vec<Arc<Entry>>,
    // Whether nothing waits, or the last change that waits is the beginning that is the whole
    // history.
    pub(crate) sealed: bool,
    pub(crate) inner: left_right::writer::Writer<Shown, Change, Sight, Prefixes>,
    // The published entries and those that wait are the history.
    pub(crate) ghost whole: { listed inner.desk.shown.value ++ map arc_value waiting.items ≡ history.front.seen.log },
    pub(crate) ghost seen: { view inner.desk.place
        ≡ sight_of (stamp_of history.front.seen.book) (listed inner.desk.shown.value) },
    pub(crate) ghost tied: { IsTied inner.desk.shown.value
        × (front_stamp inner.desk.shown.value.front ≡ stamp_of history.front.seen.book) },
    pub(crate) ghost all_come: { (coming inner.desk.shown.value (drop inner.behind inner.log.items)).entries
        ≡ history.front.seen.log },
    pub(crate) ghost last_known: { sealed ≡ true
        → ((coming inner.desk.shown.value (drop inner.behind inner.log.items)).log ≡ history.front.seen.log)
        × ((coming inner.desk.shown.value (drop inner.behind inner.log.items)).stamp
        ≡ stamp_of history.front.seen.book) },
}

/// Whether an entry has a name.
fn has_name(entries: &[Arc<Entry>], name: &str) -> bool
    ensures { result ≡ is_listed (map arc_value entries.now) name.now }
{
    for entry in entries {
        if entry.name.as_str() == name {
            return true;
        }
    }
    false
}

/// Shows what waits. An `Err` changes nothing.
pub(crate) fn show<R: Wait>(
    inner: left_right::writer::Writer<Shown, Change, Sight, Prefixes>,
    rt: &R,
) -> (
    left_right::writer::Writer<Shown, Change, Sight, Prefixes>,
    Result<(), Fault>,
)
    requires tied { (coming inner.desk.shown.value (drop inner.behind inner.log.items)).entries
        ≡ (coming inner.desk.shown.value (drop inner.behind inner.log.items)).log }
    requires stamped { (coming inner.desk.shown.value (drop inner.behind inner.log.items)).stamp
        ≡ front_stamp inner.desk.shown.value.front }
    requires longer { IsPrefix (listed inner.desk.shown.value)
        (coming inner.desk.shown.value (drop inner.behind inner.log.items)).entries }
    ensures ok { OnOk result.1
        ((listed result.0.desk.shown.value
        ≡ (coming inner.desk.shown.value (drop inner.behind inner.log.items)).entries)
        × IsTied result.0.desk.shown.value
        × (front_stamp result.0.desk.shown.value.front ≡ front_stamp inner.desk.shown.value.front)
        × (view result.0.desk.place
        ≡ sight_of (front_stamp result.0.desk.shown.value.front) (listed result.0.desk.shown.value))) }
    ensures none_waits { OnOk result.1 (drop result.0.behind result.0.log.items ≡ []) }
    ensures err { OnErr result.1
        ((result.0.desk.shown.value ≡ inner.desk.shown.value)
        × (view result.0.desk.place ≡ view inner.desk.place)
        × (drop result.0.behind result.0.log.items ≡ drop inner.behind inner.log.items)) }
    ensures memory { IfErr result.1 (λ e. IsMemory e) }
{
    let (inner, shown) = inner.publish_as::<Sees, R>(rt);
    match shown {
        Ok(()) => (inner, Ok(())),
        Err(refused) => (inner, Err(Fault::from(refused))),
    }
}

impl Writer {
    ghost use Rattle.std.specs.Prelude.{◌⊎◌, ◌∷◌, List, false, length, Err, ◌↔◌};
    ghost use Rattle.std.specs.String.{string_bytes};
    ghost use Rattle.jk_math.specs.declared.fault.Fault.TheVariants.{NameTaken};
    ghost use Rattle.jk_store.specs.declared.entry.Entry.{Entry};
    ghost use Rattle.jk_hall.specs.Writing.{list, waits, hall_of, note, hall_of_note, are_new};
    ghost use Rattle.jk_hall.specs.Runs.{Event, publishing, HasPublished};

    /// Publishes the entries that wait and then this one, each once.
    ///
    /// NameTaken: an entry of this name is published or waits. After Memory nothing more is
    /// published, and this one may wait behind the others.
    #[tactic(auto, using(crate::proofs::RunLaws::publishes_on))]
    pub fn publish<R: Wait>(&mut self, rt: &R, entry: Arc<Entry>) -> Result<(), Fault>
        ensures taken { (result ≡ Err Fault.NameTaken)
            ↔ (is_listed (list self.old ++ waits self.old) (string_bytes (arc_value entry).name) ≡ true) }
        ensures ok { OnOk result (list self.new ≡ list self.old ++ (waits self.old ++ arc_value entry ∷ [])) }
        ensures none_waits { OnOk result (waits self.new ≡ []) }
        ensures err { OnErr result (list self.new ≡ list self.old) }
        ensures still_wait { OnErr result
            ((waits self.new ≡ waits self.old) ⊎ (waits self.new ≡ waits self.old ++ arc_value entry ∷ [])) }
        ensures same { result ≡ Err Fault.NameTaken → waits self.new ≡ waits self.old }
        ensures cause { IfErr result (λ e. IsMemory e ⊎ (e ≡ NameTaken)) }
        ensures hall { hall_of self.new ≡ hall_of self.old }

        // These are events of the hall's history; an `Err` is none.
        ensures step { OnOk result ((opening : List Entry) (events : List Event)
            → HasPublished opening events (list self.old) → HasPublished opening
            (events ++ publishing (waits self.old ++ arc_value entry ∷ [])) (list self.new)) }
        ensures stays { OnErr result ((opening : List Entry) (events : List Event)
            → HasPublished opening events (list self.old) → HasPublished opening events (list self.new)) }
    {
        if self.has(entry.name.as_str()) {
            return Err(Fault::NameTaken);
        }
        self.line_up(rt, entry)?;
        self.settle(rt)
    }

    /// Whether an entry of this name is published or waits.
    fn has(&self, name: &str) -> bool
        ensures { result ≡ is_listed self.now.history.front.seen.log name.now }
    {
        has_name(self.inner.published().entries.as_slice(), name)
            || has_name(self.waiting.as_slice(), name)
    }

    /// Lets the entry wait. An `Err` changes nothing.
    fn line_up<R: Wait>(&mut self, rt: &R, entry: Arc<Entry>) -> Result<(), AllocError>
        ensures shown { self.new.inner.desk ≡ self.old.inner.desk }
        ensures ok { OnOk result (self.new.waiting.items ≡ self.old.waiting.items ++ entry ∷ []) }
        ensures err { OnErr result (self.new.waiting.items ≡ self.old.waiting.items) }
        ensures hall { hall_of self.new ≡ hall_of self.old }
    {
        self.waiting.reserve(1)?;
        let another = Arc::try_clone(&entry)?;
        append(&mut self.inner, Change::Entry(another))?;
        self.sealed = false;
        self.history.add(rt, &entry);
        self.waiting.push_reserved(entry);
        Ok(())
    }

    /// Publishes the entries that wait and then these, each once, all in one step.
    ///
    /// NameTaken: one of them has a name that is published or waits, or that one before it has; then
    /// none of them waits. After Memory nothing more is published, and the first of them may wait
    /// behind the others.
    #[tactic(auto, using(crate::proofs::RunLaws::publishes_on))]
    pub fn publish_all<R: Wait>(&mut self, rt: &R, entries: Vec<Arc<Entry>>) -> Result<(), Fault>
        ensures taken { (result ≡ Err Fault.NameTaken)
            ↔ (are_new (list self.old ++ waits self.old) (map arc_value entries.items) ≡ false) }
        ensures ok { OnOk result (list self.new ≡ list self.old ++ (waits self.old ++ map arc_value entries.items)) }
        ensures none_waits { OnOk result (waits self.new ≡ []) }
        ensures err { OnErr result (list self.new ≡ list self.old) }
        ensures still_wait { OnErr result ((front : List Entry) × IsPrefix front (map arc_value entries.items)
            × (waits self.new ≡ waits self.old ++ front)) }
        ensures same { result ≡ Err Fault.NameTaken → waits self.new ≡ waits self.old }
        ensures cause { IfErr result (λ e. IsMemory e ⊎ (e ≡ NameTaken)) }
        ensures hall { hall_of self.new ≡ hall_of self.old }

        // These are events of the hall's history; an `Err` is none.
        ensures step { OnOk result ((opening : List Entry) (events : List Event)
            → HasPublished opening events (list self.old) → HasPublished opening
            (events ++ publishing (waits self.old ++ map arc_value entries.items)) (list self.new)) }
        ensures stays { OnErr result ((opening : List Entry) (events : List Event)
            → HasPublished opening events (list self.old) → HasPublished opening events (list self.new)) }
    {
        if !self.are_new(entries.as_slice()) {
            return Err(Fault::NameTaken);
        }
        self.line_up_all(rt, entries)?;
        self.settle(rt)
    }

    /// Whether each of these has a name that is neither published nor waits, nor is that of one
    /// before it.
    fn are_new(&self, entries: &[Arc<Entry>]) -> bool
        ensures { result ≡ are_new self.now.history.front.seen.log (map arc_value entries.now) }
    {
        for number in 0..entries.len() {
            if self.is_taken(&entries[..number], entries[number].name.as_str()) {
                return false;
            }
        }
        true
    }

    /// Whether an entry of this name is published or waits, or is one of these.
    fn is_taken(&self, before: &[Arc<Entry>], name: &str) -> bool
        ensures { result ≡ is_listed (self.now.history.front.seen.log ++ map arc_value before.now) name.now }
    {
        self.has(name) || has_name(before, name)
    }

    /// Lets these entries wait. After an `Err` the first of them may wait.
    fn line_up_all<R: Wait>(&mut self, rt: &R, entries: Vec<Arc<Entry>>) -> Result<(), AllocError>
        ensures shown { self.new.inner.desk ≡ self.old.inner.desk }
        ensures ok { OnOk result (waits self.new ≡ waits self.old ++ map arc_value entries.items) }
        ensures err { OnErr result ((front : List Entry) × IsPrefix front (map arc_value entries.items)
            × (waits self.new ≡ waits self.old ++ front)) }
        ensures hall { hall_of self.new ≡ hall_of self.old }
    {
        for entry in entries {
            self.line_up(rt, entry)?;
        }
        Ok(())
    }

    /// Publishes the entries that wait. An `Err` publishes nothing.
    #[tactic(auto, using(crate::proofs::RunLaws::publishes_on))]
    pub fn settle<R: Wait>(&mut self, rt: &R) -> Result<(), Fault>
        ensures ok { OnOk result (list self.new ≡ list self.old ++ waits self.old) }
        ensures none_waits { OnOk result (self.new.waiting.items ≡ []) }
        ensures err { OnErr result (list self.new ≡ list self.old) }
        ensures still_wait { OnErr result (self.new.waiting.items ≡ self.old.waiting.items) }
        ensures memory { IfErr result (λ e. IsMemory e) }
        ensures hall { hall_of self.new ≡ hall_of self.old }
        ensures step { OnOk result ((opening : List Entry) (events : List Event)
            → HasPublished opening events (list self.old)
            → HasPublished opening (events ++ publishing (waits self.old)) (list self.new)) }
        ensures stays { OnErr result ((opening : List Entry) (events : List Event)
            → HasPublished opening events (list self.old) → HasPublished opening events (list self.new)) }
    {
        if !self.sealed {
            let front = self.history.front.again();
            append(&mut self.inner, Change::Front(front))?;
            self.sealed = true;
        }
        if let Err(refused) = replace_with(&mut self.inner, rt, show::<R>) {
            return Err(refused);
        }
        self.waiting.clear();
        Ok(())
    }

    /// How many entries wait.
    pub fn waiting(&self) -> usize
        ensures { result ≡ length (waits self.now) }
    {
        self.waiting.len()
    }

    /// The published list, for a reader to learn.
    pub fn tell(&self) -> Told
        ensures list { note result ≡ list self.now }
        ensures hall { hall_of_note result ≡ hall_of self.now }
    {
        Told {
            front: self.inner.published().front.again(),
        }
    }

    /// Ends the writer. Entries that wait are given up.
    pub fn close<R: Wait>(self, rt: &R) {
        let Writer {
            history: _history,
            waiting: _waiting,
            sealed: _,
            inner,
        } = self;
        drop(inner.take(rt));
    }
}
