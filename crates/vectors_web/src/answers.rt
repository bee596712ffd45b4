ghost use Rattle.std.specs.Prelude.{◌≡◌};

use crate::asserts::equal_at;
use crate::calls::{feed, next};
use crate::cases::ANSWERS;
use jk_math::Fault;
use jk_web::{Asked, Catalogue, Next, Reply, Request, Session, answer};
use std::alloc::Global;
use std::process::Abort;

/// The image `a`; broken where its file can't be read.
#[derive(Drop)]
struct Gallery {
    broken: bool,
}

impl Catalogue for Gallery {
    ghost use Rattle.std.specs.Prelude.{◌≡◌, true, ◌∷◌, []};
    ghost use Rattle.jk_web.specs.Images.{image_of, IsCutOf};
    ghost use Rattle.vectors_web.specs.Gallery.{only, IsGallery};

    ghost stands = { λ _ images. IsGallery images };

    ghost keeps = { λ _ images. IsGallery images };

    ghost broke = { λ s _ _. s.broken ≡ true };

    ghost reads = { λ _ _ _ _. ⊥ };

    ghost cuts = { λ _ _ _ _ _. ⊥ };

    ghost made = { λ _ n asked cut. IsCutOf (image_of n (only ∷ [])) asked cut };

    ghost steps = { λ _ _. Unit {0} };

    fn lines(&self, alloc: Global) -> Result<Vec<u8>, Fault> {
        Ok(Vec::from_slice(alloc, b"a 1 1 1 8 0\n")?)
    }

    fn has(&self, name: &[u8]) -> bool {
        name == b"a".as_slice()
    }

    fn whole(&mut self, alloc: Global, name: &[u8]) -> Result<Vec<u8>, Fault> {
        if name != b"a".as_slice() {
            return Err(Fault::NoSuchImage);
        }
        if self.broken {
            return Err(Fault::Changed);
        }
        Ok(Vec::from_slice(alloc, b"whole")?)
    }

    fn window(&mut self, alloc: Global, name: &[u8], asked: Asked) -> Result<Vec<u8>, Fault> {
        if name != b"a".as_slice() {
            return Err(Fault::NoSuchImage);
        }
        if asked.width == 0 || asked.height == 0 {
            return Err(Fault::BadWindow);
        }
        if self.broken {
            return Err(Fault::Shelf);
        }
        Ok(Vec::from_slice(alloc, b"cut")?)
    }

    ghost stays = { λ _. tt };
}

/// The reply to a request.
fn reply_to(rt: &impl Abort, alloc: Global, request: &Request, broken: bool) -> Reply {
    let mut gallery = Gallery { broken };
    answer(alloc, request, &mut gallery).expect(rt, "a reply")
}

/// The reply to the request at the front of a stream, or none.
fn replies(rt: &impl Abort, alloc: Global, stream: &[u8], broken: bool, want: &[u8]) {
    let mut session = Session::new(alloc);
    feed(rt, &mut session, stream);
    if let Next::Request(request) = next(rt, &mut session) {
        let reply = reply_to(rt, alloc, &request, broken);
        equal_at(rt, "a reply", stream, reply.bytes.as_slice(), want);
    } else {
        equal_at(rt, "no reply", stream, b"".as_slice(), want);
    }
}

#[test]
fn answers(rt: HostRuntime) {
    for (stream, broken, want) in &ANSWERS {
        replies(&rt, rt.alloc(), *stream, *broken, *want);
    }
}
