//! Connections that a reader attends to.

ghost use Rattle.std.specs.Prelude.{◌≤◌, List, ℕ, length, IfErr};
ghost use Rattle.std.specs.Io.KnownBytes.{Appends, Consumes, IsAtEnd};
ghost use Rattle.jk_web.specs.Serving.{EndsConnection};
ghost use Rattle.jk_web.specs.Turns.{IsReadIn};
ghost use Rattle.jk_hall.specs.Replying.{IsCause, Goes};
ghost use Rattle.jk_hall.specs.Reading.{seen};
ghost use Rattle.jk_hall.specs.Behind.{behind, AreSame, GivesUpTo, RefusesUpTo};
ghost use Rattle.jk_hall.specs.Connections.{Attends};

use crate::reader::Reader;
use jk_math::Fault;
use jk_store::Shelf;
use jk_web::{End, Reply, Request, Service, Witness, serve_connection};
use std::alloc::Global;
use std::io::{Read, Write};

/// A reader and a shelf, for a connection, and who is told of its requests.
#[derive(Drop)]
pub(crate) struct Attending<'a, S, W> {
    pub(crate) reader: &'a mut Reader,
    pub(crate) shelf: &'a mut S,
    pub(crate) witness: &'a W,
}

impl<'a, S: Shelf, W: Witness> Service for Attending<'a, S, W> {
    ghost use Rattle.jk_hall.specs.Behind.{GivesBehind, RefusesBehind};

    ghost gives = { GivesBehind S.keeps S.failed S.gave S.gave_at };

    ghost refuses = { RefusesBehind S.keeps };

    fn answer(&mut self, alloc: Global, request: &Request) -> Result<Reply, Fault> {
        match self.reader.serve(alloc, self.shelf, request) {
            Ok(reply) => {
                self.witness.answered(request, &reply);
                Ok(reply)
            }
            Err(fault) => Err(fault),
        }
    }
}

/// Answers the requests of a connection one after another, in at most so many reads.
fn attend_with<'a, I: Read, O: Write, S: Shelf, W: Witness>(
    alloc: Global,
    input: &mut I,
    output: &mut O,
    service: &mut Attending<'a, S, W>,
    turns: u64,
) -> Result<End, Fault>
    ensures same { AreSame service.old service.new }
    ensures goes { Goes S.keeps (behind service.old) (behind service.new) }
    ensures text { (stream : List ℕ) × (text : List ℕ)
        × Consumes (I.remaining input.old) (I.remaining input.new) stream
        × Appends (O.contents output.old) (O.contents output.new) text
        × EndsConnection (GivesUpTo S.keeps S.failed S.gave S.gave_at (seen service.new.reader.now))
        (RefusesUpTo S.keeps (seen service.new.reader.now))
        (behind service.old) stream text (IsAtEnd (I.remaining input.new)) (turns ≤ length stream)
        (behind service.new) result
        × IsReadIn turns stream result }
    ensures images { Attends S.keeps S.failed S.gave S.gave_at (Consumes (I.remaining input.old) (I.remaining input.new))
        (Appends (O.contents output.old) (O.contents output.new)) (IsAtEnd (I.remaining input.new)) turns
        (behind service.old) (behind service.new) result }
    ensures cause { IfErr result (λ e. IsCause e) }
{
    serve_connection(alloc, input, output, service, turns)
}

impl Reader {
    /// Answers the requests of a connection one after another from what it sees, in at most so many
    /// reads, as `jk_web::run` does. TurnsSpent: so many reads were made, and each gave a byte.
    ///
    /// Each reply is given by one list. The lists are longer and longer beginnings of the last one.
    /// The witness is told of each reply before it is sent.
    pub fn attend<I: Read, O: Write, S: Shelf, W: Witness>(
        &mut self,
        alloc: Global,
        shelf: &mut S,
        input: &mut I,
        output: &mut O,
        witness: &W,
        turns: u64,
    ) -> Result<End, Fault>
        ensures goes { Goes S.keeps (self.old, shelf.old) (self.new, shelf.new) }
        ensures text { (stream : List ℕ) × (text : List ℕ)
            × Consumes (I.remaining input.old) (I.remaining input.new) stream
            × Appends (O.contents output.old) (O.contents output.new) text
            × EndsConnection (GivesUpTo S.keeps S.failed S.gave S.gave_at (seen self.new))
            (RefusesUpTo S.keeps (seen self.new))
            (self.old, shelf.old) stream text (IsAtEnd (I.remaining input.new)) (turns ≤ length stream)
            (self.new, shelf.new) result
            × IsReadIn turns stream result }
        // The same of images.
        ensures images { Attends S.keeps S.failed S.gave S.gave_at
            (Consumes (I.remaining input.old) (I.remaining input.new))
            (Appends (O.contents output.old) (O.contents output.new)) (IsAtEnd (I.remaining input.new)) turns
            (self.old, shelf.old) (self.new, shelf.new) result }
        ensures cause { IfErr result (λ e. IsCause e) }
    {
        let mut service = Attending {
            reader: self,
            shelf,
            witness,
        };
        attend_with(alloc, input, output, &mut service, turns)
    }
}
