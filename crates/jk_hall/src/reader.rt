//! A reader.

ghost use Rattle.std.specs.Prelude.{◌≡◌, true};
ghost use Rattle.left_right.specs.Sides.{view};
ghost use Rattle.jk_hall.specs.Sights.{stamp_of};

use crate::history::Front;
use crate::looking::{Ask, look};
use crate::place::Place;
use crate::told::Told;
use core::mem::replace_with;
use jk_math::Fault;
use jk_store::Shelf;
use jk_web::{Reply, Request};
use std::alloc::Global;

/// What answers requests from the list that is published, and waits for nobody.
#[derive(Drop)]
pub struct Reader {
    pub(crate) place: Place,
    // The longest list that it was told.
    pub(crate) told: Front,
    pub(crate) ghost known: { (view place.inner.place).known ≡ true },
    pub(crate) ghost stamped: { (view place.inner.place).stamp ≡ stamp_of told.seen.book },
}

impl Reader {
    ghost use Rattle.std.specs.Prelude.{◌⊎◌, IfOk, IfErr, OnOk};
    ghost use mathlib.Core.List.{IsPrefix};
    ghost use Rattle.jk_hall.specs.Writing.{note, hall_of_note};
    ghost use Rattle.jk_hall.specs.Reading.{seen, told, hall_of_reader, cuts};
    ghost use Rattle.jk_hall.specs.Replying.{GivesReply, RefusesReply};
    ghost use Rattle.jk_hall.specs.Runs.{LooksNext};

    /// Takes up a list that was told by the writer of its hall: from now on it answers from no
    /// shorter one.
    pub fn learn(&mut self, said: Told)
        requires { hall_of_note said ≡ hall_of_reader self.old }
        ensures this { IsPrefix (told self.old) (told self.new) }
        ensures that { IsPrefix (note said) (told self.new) }
        ensures one { (told self.new ≡ told self.old) ⊎ (told self.new ≡ note said) }
        ensures hall { hall_of_reader self.new ≡ hall_of_reader self.old }
        ensures seen { seen self.new ≡ seen self.old }
        ensures cuts { cuts self.new ≡ cuts self.old }
    {
        self.told = self.told.longer(&said.front);
    }

    /// The reply to a request, from one list that begins with all that was seen and all that was
    /// told.
    ///
    /// WorkerFailed: what is published couldn't be looked at. Neither this nor Memory makes shorter
    /// what was seen.
    pub fn serve<S: Shelf>(
        &mut self,
        alloc: Global,
        shelf: &mut S,
        request: &Request,
    ) -> Result<Reply, Fault>
        ensures ok { IfOk result (λ r. GivesReply S.keeps S.failed S.gave S.gave_at (self.old, shelf.old) request.now r
            (self.new, shelf.new)) }
        ensures err { IfErr result (λ e. RefusesReply S.keeps (self.old, shelf.old) request.now e (self.new, shelf.new)) }

        // In a run of events that has published what was seen, more is published, and then its look
        // at the list is the next event.
        ensures step { OnOk result (LooksNext (seen self.old) (seen self.new)) }
    {
        let told = self.told.again();
        let ask = Ask {
            alloc,
            told: &told,
            request,
            shelf,
        };
        let (reply, _shelf) = replace_with(&mut self.place, ask, look::<S>);
        reply
    }
}
