//! Connections to a catalogue of images.

ghost use Rattle.std.specs.Prelude.{◌≡◌, ◌<◌, ◌≤◌, List, ℕ, All, length, Ok, IfErr, IfSome};
ghost use Rattle.std.specs.Io.KnownBytes.{Appends, Consumes, IsAtEnd};
ghost use Rattle.jk_math.specs.Memory.{IsMemory};
ghost use Rattle.jk_web.specs.Resources.{IsPathSegment};
ghost use Rattle.jk_web.specs.Images.{Image, names_of, gives_reply, gives_with, gives_cached, gives_kept};
ghost use Rattle.jk_web.specs.Images.{refuses_memory};
ghost use Rattle.jk_web.specs.Serving.{EndsConnection};
ghost use Rattle.jk_web.specs.Turns.{IsReadIn};
ghost use Rattle.jk_web.specs.Cuts.{Within, AreOf, Has};
ghost use Rattle.jk_web.specs.Behind.{AreSame, HoldsBehind, KnowsBehind};

use crate::answering::{answer, answer_by};
use crate::cache::Cache;
use crate::reply::Reply;
use crate::request::Request;
use crate::service::Service;
use crate::serving::{End, serve_connection};
use crate::windows::Windows;
use jk_catalogue::Catalogue;
use jk_math::Fault;
use std::alloc::Global;
use std::io::{Read, Write};

impl<C: Catalogue> Service for C {
    ghost use Rattle.std.specs.Prelude.{List, All};
    ghost use Rattle.jk_math.specs.Memory.{IsMemory};
    ghost use Rattle.jk_web.specs.Resources.{IsPathSegment};
    ghost use Rattle.jk_web.specs.Images.{Image, names_of};
    ghost use Rattle.jk_web.specs.Running.{GivesAnswer, RefusesAnswer};

    ghost gives = { GivesAnswer C.stands C.keeps C.made C.broke C.reads C.cuts };

    ghost refuses = { RefusesAnswer C.stands C.keeps C.made };

    fn answer(&mut self, alloc: Global, request: &Request) -> Result<Reply, Fault> {
        answer(alloc, request, self)
    }
}

/// Answers the requests of a connection from a catalogue of images, in at most so many reads.
///
/// What is written is the replies to the requests in order, whatever pieces they come in, up to the
/// first that closes or to the first bad one. Where memory is refused, whole replies are written
/// alone. TurnsSpent: so many reads were made, and each gave a byte.
pub fn run<I: Read, O: Write, C: Catalogue>(
    alloc: Global,
    reader: &mut I,
    writer: &mut O,
    catalogue: &mut C,
    turns: u64,
) -> Result<End, Fault>
    // Whatever the files of the images hold by now.
    ensures text { (images : List Image) → C.stands catalogue.old images → All IsPathSegment (names_of images)
        → (stream : List ℕ) × (text : List ℕ)
        × Consumes (I.remaining reader.old) (I.remaining reader.new) stream
        × Appends (O.contents writer.old) (O.contents writer.new) text
        × EndsConnection (gives_reply C.broke C.reads C.cuts images) refuses_memory catalogue.old stream text
        (IsAtEnd (I.remaining reader.new)) (turns ≤ length stream) catalogue.new result
        × IsReadIn turns stream result }
    // Where they are kept, no other file is sent.
    ensures same { (images : List Image) → C.stands catalogue.old images → C.keeps catalogue.old images
        → All IsPathSegment (names_of images)
        → (stream : List ℕ) × (text : List ℕ)
        × Consumes (I.remaining reader.old) (I.remaining reader.new) stream
        × Appends (O.contents writer.old) (O.contents writer.new) text
        × EndsConnection (gives_kept C.broke images) refuses_memory catalogue.old stream text (IsAtEnd (I.remaining reader.new))
        (turns ≤ length stream) catalogue.new result
        × IsReadIn turns stream result }
    ensures stands { (images : List Image) → C.stands catalogue.old images → C.stands catalogue.new images }
    ensures keeps { (images : List Image) → C.keeps catalogue.old images → C.keeps catalogue.new images }
    ensures lasts { Within (C.made catalogue.old) (C.made catalogue.new) }
    // A read takes a byte at least: more turns than bytes are enough.
    ensures enough { IfSome (I.remaining reader.old) (λ all. length all < turns → result ≡ Ok End.TurnsSpent → ⊥) }
    ensures memory { IfErr result (λ e. IsMemory e) }
{
    serve_connection(alloc, reader, writer, catalogue, turns)
}

/// A catalogue, and the place that its windows come from, for a connection.
#[derive(Drop)]
pub(crate) struct Answering<'a, C, W> {
    pub(crate) catalogue: &'a mut C,
    pub(crate) windows: &'a mut W,
}

impl<'a, C: Catalogue, W: Windows<C>> Service for Answering<'a, C, W> {
    ghost use Rattle.jk_web.specs.Behind.{GivesBehind, RefusesBehind};

    ghost gives = { GivesBehind C.stands C.keeps C.made W.has C.broke C.reads W.others };

    ghost refuses = { RefusesBehind C.stands C.keeps C.made W.has };

    fn answer(&mut self, alloc: Global, request: &Request) -> Result<Reply, Fault> {
        answer_by(alloc, request, self.catalogue, self.windows)
    }
}

/// Answers the requests of a connection, in at most so many reads.
fn run_behind<'a, I: Read, O: Write, C: Catalogue, W: Windows<C>>(
    alloc: Global,
    reader: &mut I,
    writer: &mut O,
    service: &mut Answering<'a, C, W>,
    turns: u64,
) -> Result<End, Fault>
    ensures goes { AreSame service.old service.new }
    ensures text { (images : List Image) → C.stands service.old.catalogue.now images
        → HoldsBehind C.made W.has service.old → All IsPathSegment (names_of images)
        → (stream : List ℕ) × (text : List ℕ)
        × Consumes (I.remaining reader.old) (I.remaining reader.new) stream
        × Appends (O.contents writer.old) (O.contents writer.new) text
        × EndsConnection (gives_with C.broke C.reads W.others images) refuses_memory service.old.catalogue.now stream text
        (IsAtEnd (I.remaining reader.new)) (turns ≤ length stream) service.new.catalogue.now result
        × IsReadIn turns stream result }
    ensures same { (images : List Image) → KnowsBehind C.stands C.keeps W.has images service.old
        → All IsPathSegment (names_of images)
        → (stream : List ℕ) × (text : List ℕ)
        × Consumes (I.remaining reader.old) (I.remaining reader.new) stream
        × Appends (O.contents writer.old) (O.contents writer.new) text
        × EndsConnection (gives_kept C.broke images) refuses_memory service.old.catalogue.now stream text
        (IsAtEnd (I.remaining reader.new)) (turns ≤ length stream) service.new.catalogue.now result
        × IsReadIn turns stream result }
    ensures stands { (images : List Image) → C.stands service.old.catalogue.now images
        → C.stands service.new.catalogue.now images }
    ensures keeps { (images : List Image) → C.keeps service.old.catalogue.now images
        → C.keeps service.new.catalogue.now images }
    ensures lasts { Within (C.made service.old.catalogue.now) (C.made service.new.catalogue.now) }
    ensures holds { HoldsBehind C.made W.has service.old → HoldsBehind C.made W.has service.new }
    ensures knows { (images : List Image) → KnowsBehind C.stands C.keeps W.has images service.old
        → AreOf (W.has service.new.windows.now) images }
    // A read takes a byte at least: more turns than bytes are enough.
    ensures enough { IfSome (I.remaining reader.old) (λ all. length all < turns → result ≡ Ok End.TurnsSpent → ⊥) }
    ensures memory { IfErr result (λ e. IsMemory e) }
{
    serve_connection(alloc, reader, writer, service, turns)
}

/// Answers the requests of a connection as `run` does, from kept windows where there are some.
///
/// A window that is kept is given without a look at the catalogue's files, and one that is made is
/// kept, if memory allows.
pub fn run_with<I: Read, O: Write, C: Catalogue>(
    alloc: Global,
    reader: &mut I,
    writer: &mut O,
    catalogue: &mut C,
    cache: &mut Cache,
    turns: u64,
) -> Result<End, Fault>
    // Whatever the files of the images hold by now, where each kept cut may have been made.
    ensures text { (images : List Image) → C.stands catalogue.old images
        → Within (Has cache.old) (C.made catalogue.old) → All IsPathSegment (names_of images)
        → (stream : List ℕ) × (text : List ℕ)
        × Consumes (I.remaining reader.old) (I.remaining reader.new) stream
        × Appends (O.contents writer.old) (O.contents writer.new) text
        × EndsConnection (gives_cached C.broke C.reads C.made images) refuses_memory catalogue.old stream text
        (IsAtEnd (I.remaining reader.new)) (turns ≤ length stream) catalogue.new result
        × IsReadIn turns stream result }
    // Where they are kept, and each kept cut is an image's, no other file is sent.
    ensures same { (images : List Image) → C.stands catalogue.old images → C.keeps catalogue.old images
        → AreOf (Has cache.old) images → All IsPathSegment (names_of images)
        → (stream : List ℕ) × (text : List ℕ)
        × Consumes (I.remaining reader.old) (I.remaining reader.new) stream
        × Appends (O.contents writer.old) (O.contents writer.new) text
        × EndsConnection (gives_kept C.broke images) refuses_memory catalogue.old stream text
        (IsAtEnd (I.remaining reader.new)) (turns ≤ length stream) catalogue.new result
        × IsReadIn turns stream result }
    ensures stands { (images : List Image) → C.stands catalogue.old images → C.stands catalogue.new images }
    ensures keeps { (images : List Image) → C.keeps catalogue.old images → C.keeps catalogue.new images }
    ensures lasts { Within (C.made catalogue.old) (C.made catalogue.new) }
    // Where each kept cut may have been made before, each may have been made behind it.
    ensures holds { Within (Has cache.old) (C.made catalogue.old) → Within (Has cache.new) (C.made catalogue.new) }
    // Where each was an image's, and the files are kept, each is one behind it.
    ensures knows { (images : List Image) → C.stands catalogue.old images → C.keeps catalogue.old images
        → AreOf (Has cache.old) images → AreOf (Has cache.new) images }
    // A read takes a byte at least: more turns than bytes are enough.
    ensures enough { IfSome (I.remaining reader.old) (λ all. length all < turns → result ≡ Ok End.TurnsSpent → ⊥) }
    ensures memory { IfErr result (λ e. IsMemory e) }
{
    let mut service = Answering {
        catalogue,
        windows: cache,
    };
    run_behind(alloc, reader, writer, &mut service, turns)
}
