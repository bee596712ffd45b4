//! Answers to requests.

ghost use Rattle.std.specs.Prelude.{◌≡◌, List, ℕ, Some, All, IfOk, IfErr, IsErr};
ghost use Rattle.jk_math.specs.Memory.{IsMemory};
ghost use Rattle.jk_web.specs.Resources.{IsPathSegment, among, whole, window, listing};
ghost use Rattle.jk_web.specs.Queries.{pairs_of, asked_by};
ghost use Rattle.jk_web.specs.Replies.{printed, error};
ghost use Rattle.jk_web.specs.Images.{Image, names_of, content_of, status_of, IsReplyAt, IsReplyAtWith, IsKeptReplyAt};
ghost use Rattle.jk_web.specs.Images.{IsReply, IsReplyWith, IsCachedReply, IsKeptReply};
ghost use Rattle.jk_web.specs.Cuts.{Within, AreOf, IsHit, Has};

use crate::cache::Cache;
use crate::query::{is_empty, window_asked};
use crate::reply::{Media, Reply, answered, refuse};
use crate::request::Request;
use crate::resource::{NamedResource, resource_of, split_target};
use crate::windows::{Direct, Windows};
use jk_catalogue::Catalogue;
use jk_math::Fault;
use jk_window::View;
use std::alloc::Global;

/// The reply that says why a file isn't sent. Where memory was refused, there is none.
fn refused(alloc: Global, fault: Fault, close: bool) -> Result<Reply, Fault>
    ensures exact { IfOk result (λ r. r ≡ printed (error (status_of fault)) close) }
    ensures memory { IfErr result (λ e. IsMemory e) }
    ensures passed { IsMemory fault → IsErr result }
{
    let status = match fault {
        Fault::Memory(_) => return Err(fault),
        Fault::NoSuchImage => 404,
        Fault::BadWindow => 400,
        _ => 500,
    };
    refuse(alloc, status, close)
}

/// The reply with the list of images.
fn answer_listing<C: Catalogue>(
    alloc: Global,
    query: &[u8],
    close: bool,
    catalogue: &C,
) -> Result<Reply, Fault>
    ensures exact { (images : List Image) → C.stands catalogue.now images
        → IfOk result (λ r. r ≡ printed (content_of images query.now listing) close) }
    ensures memory { IfErr result (λ e. IsMemory e) }
{
    if !is_empty(query) {
        return refuse(alloc, 400, close);
    }
    let body = catalogue.lines(alloc)?;
    answered(alloc, 200, Media::Plain, &body, close)
}

/// The reply with the file of an image.
fn answer_whole<C: Catalogue>(
    alloc: Global,
    name: &[u8],
    query: &[u8],
    close: bool,
    catalogue: &mut C,
) -> Result<Reply, Fault>
    ensures exact { (images : List Image) → C.stands catalogue.old images
        → IfOk result
        (IsReplyAt C.broke C.reads C.cuts images catalogue.old catalogue.new query.now close
        (among (names_of images) (whole name.now))) }
    ensures same { (images : List Image) → C.stands catalogue.old images → C.keeps catalogue.old images
        → IfOk result
        (IsKeptReplyAt C.broke images catalogue.old catalogue.new query.now close
        (among (names_of images) (whole name.now))) }
    ensures stands { (images : List Image) → C.stands catalogue.old images → C.stands catalogue.new images }
    ensures keeps { (images : List Image) → C.keeps catalogue.old images → C.keeps catalogue.new images }
    ensures lasts { Within (C.made catalogue.old) (C.made catalogue.new) }
    ensures steps { C.steps catalogue.old catalogue.new }
    ensures memory { IfErr result (λ e. IsMemory e) }
{
    if !catalogue.has(name) {
        return refuse(alloc, 404, close);
    }
    if !is_empty(query) {
        return refuse(alloc, 400, close);
    }
    match catalogue.whole(alloc, name) {
        Ok(file) => answered(alloc, 200, Media::Jp2, &file, close),
        Err(fault) => refused(alloc, fault, close),
    }
}

/// The reply with a window of an image.
fn answer_window<C: Catalogue, W: Windows<C>>(
    alloc: Global,
    name: &[u8],
    query: &[u8],
    close: bool,
    catalogue: &mut C,
    windows: &mut W,
) -> Result<Reply, Fault>
    ensures exact { (images : List Image) → C.stands catalogue.old images
        → Within (W.has windows.old) (C.made catalogue.old)
        → IfOk result (IsReplyAtWith C.broke C.reads W.others images catalogue.old catalogue.new query.now close
        (among (names_of images) (window name.now))) }
    ensures same { (images : List Image) → C.stands catalogue.old images → C.keeps catalogue.old images
        → AreOf (W.has windows.old) images
        → IfOk result (IsKeptReplyAt C.broke images catalogue.old catalogue.new query.now close
        (among (names_of images) (window name.now))) }
    ensures stands { (images : List Image) → C.stands catalogue.old images → C.stands catalogue.new images }
    ensures keeps { (images : List Image) → C.keeps catalogue.old images → C.keeps catalogue.new images }
    ensures lasts { Within (C.made catalogue.old) (C.made catalogue.new) }
    ensures steps { C.steps catalogue.old catalogue.new }
    ensures knows { (images : List Image) → C.stands catalogue.old images → C.keeps catalogue.old images
        → AreOf (W.has windows.old) images → AreOf (W.has windows.new) images }
    ensures holds { Within (W.has windows.old) (C.made catalogue.old)
        → Within (W.has windows.new) (C.made catalogue.new) }
    ensures unread { (asked : View) (b : List ℕ) → asked_by (pairs_of query.now) ≡ Some asked
        → W.has windows.old name.now asked b → catalogue.new ≡ catalogue.old }
    ensures memory { IfErr result (λ e. IsMemory e) }
{
    if !catalogue.has(name) {
        return refuse(alloc, 404, close);
    }
    let Some(asked) = window_asked(alloc, query)? else {
        return refuse(alloc, 400, close);
    };
    match windows.window(alloc, catalogue, name, asked) {
        Ok(file) => answered(alloc, 200, Media::Jp2, &file, close),
        Err(fault) => refused(alloc, fault, close),
    }
}

/// The reply to a request, where windows come from there.
#[tactic(auto, unfolding(crate::specs::Images::content))]
pub(crate) fn answer_by<C: Catalogue, W: Windows<C>>(
    alloc: Global,
    request: &Request,
    catalogue: &mut C,
    windows: &mut W,
) -> Result<Reply, Fault>
    ensures exact { (images : List Image) → C.stands catalogue.old images
        → Within (W.has windows.old) (C.made catalogue.old) → All IsPathSegment (names_of images)
        → IfOk result (IsReplyWith C.broke C.reads W.others images request.now catalogue.old catalogue.new) }
    ensures same { (images : List Image) → C.stands catalogue.old images → C.keeps catalogue.old images
        → AreOf (W.has windows.old) images → All IsPathSegment (names_of images)
        → IfOk result (IsKeptReply C.broke images request.now catalogue.old catalogue.new) }
    ensures stands { (images : List Image) → C.stands catalogue.old images → C.stands catalogue.new images }
    ensures keeps { (images : List Image) → C.keeps catalogue.old images → C.keeps catalogue.new images }
    ensures lasts { Within (C.made catalogue.old) (C.made catalogue.new) }
    ensures steps { C.steps catalogue.old catalogue.new }
    ensures knows { (images : List Image) → C.stands catalogue.old images → C.keeps catalogue.old images
        → AreOf (W.has windows.old) images → AreOf (W.has windows.new) images }
    ensures holds { Within (W.has windows.old) (C.made catalogue.old)
        → Within (W.has windows.new) (C.made catalogue.new) }
    ensures unread { (names : List (List ℕ)) → All IsPathSegment names → IsHit (W.has windows.old) names request.now
        → catalogue.new ≡ catalogue.old }
    ensures memory { IfErr result (λ e. IsMemory e) }
{
    let close = request.closes;
    if request.method.as_slice() != b"GET".as_slice() {
        return refuse(alloc, 405, close);
    }
    let (path, query) = split_target(request.target.as_slice());
    match resource_of(path) {
        NamedResource::Listing => answer_listing(alloc, query, close, &*catalogue),
        NamedResource::Whole(name) => answer_whole(alloc, name, query, close, catalogue),
        NamedResource::Window(name) => answer_window(alloc, name, query, close, catalogue, windows),
        NamedResource::Nowhere => refuse(alloc, 404, close),
    }
}

/// The reply to a request.
pub fn answer<C: Catalogue>(
    alloc: Global,
    request: &Request,
    catalogue: &mut C,
) -> Result<Reply, Fault>
    // Whatever the files of the images hold by now.
    ensures exact { (images : List Image) → C.stands catalogue.old images → All IsPathSegment (names_of images)
        → IfOk result (IsReply C.broke C.reads C.cuts images request.now catalogue.old catalogue.new) }
    // Where they are kept, no other file is sent.
    ensures same { (images : List Image) → C.stands catalogue.old images → C.keeps catalogue.old images
        → All IsPathSegment (names_of images)
        → IfOk result (IsKeptReply C.broke images request.now catalogue.old catalogue.new) }
    ensures stands { (images : List Image) → C.stands catalogue.old images → C.stands catalogue.new images }
    ensures keeps { (images : List Image) → C.keeps catalogue.old images → C.keeps catalogue.new images }
    ensures lasts { Within (C.made catalogue.old) (C.made catalogue.new) }
    ensures steps { C.steps catalogue.old catalogue.new }
    ensures memory { IfErr result (λ e. IsMemory e) }
{
    let mut direct = Direct;
    answer_by(alloc, request, catalogue, &mut direct)
}

/// The reply to a request, from kept windows where there are some.
///
/// A window that is made is kept, if memory allows.
pub fn answer_with<C: Catalogue>(
    alloc: Global,
    request: &Request,
    catalogue: &mut C,
    cache: &mut Cache,
) -> Result<Reply, Fault>
    // Whatever the files of the images hold by now, where each kept cut may have been made.
    ensures exact { (images : List Image) → C.stands catalogue.old images
        → Within (Has cache.old) (C.made catalogue.old) → All IsPathSegment (names_of images)
        → IfOk result (IsCachedReply C.broke C.reads C.made images request.now catalogue.old catalogue.new) }
    // Where they are kept, and each kept cut is an image's, no other file is sent.
    ensures same { (images : List Image) → C.stands catalogue.old images → C.keeps catalogue.old images
        → AreOf (Has cache.old) images → All IsPathSegment (names_of images)
        → IfOk result (IsKeptReply C.broke images request.now catalogue.old catalogue.new) }
    ensures stands { (images : List Image) → C.stands catalogue.old images → C.stands catalogue.new images }
    ensures keeps { (images : List Image) → C.keeps catalogue.old images → C.keeps catalogue.new images }
    ensures lasts { Within (C.made catalogue.old) (C.made catalogue.new) }
    ensures steps { C.steps catalogue.old catalogue.new }
    // A window that is kept is given without a look at the catalogue's files.
    ensures unread { (names : List (List ℕ)) → All IsPathSegment names → IsHit (Has cache.old) names request.now
        → catalogue.new ≡ catalogue.old }
    // Where each kept cut may have been made before, each may have been made behind it.
    ensures holds { Within (Has cache.old) (C.made catalogue.old) → Within (Has cache.new) (C.made catalogue.new) }
    // Where each was an image's, and the files are kept, each is one behind it.
    ensures knows { (images : List Image) → C.stands catalogue.old images → C.keeps catalogue.old images
        → AreOf (Has cache.old) images → AreOf (Has cache.new) images }
    ensures memory { IfErr result (λ e. IsMemory e) }
{
    answer_by(alloc, request, catalogue, cache)
}
