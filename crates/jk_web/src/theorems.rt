//! Laws of the texts of connections: the contract of an empty function is the law.

ghost use Rattle.std.specs.Prelude.{List, ℕ};
ghost use Rattle.jk_web.specs.Images.{Image, gives_reply, gives_cached, gives_kept};
ghost use Rattle.jk_web.specs.Serving.{IsCutText, BeginsText};

use jk_catalogue::Catalogue;

/// Where a write has failed, what was written is the beginning of a text of all that is due: of the
/// replies to all requests that were read, up to the first that closes or to the first bad one.
pub fn cut_texts_begin_whole_ones<C: Catalogue>()
    ensures text { (images : List Image) (s t : C) (stream text : List ℕ)
        → IsCutText (gives_reply C.broke C.reads C.cuts images) s stream text t
        → BeginsText (gives_reply C.broke C.reads C.cuts images) s stream text }
    ensures cached { (images : List Image) (s t : C) (stream text : List ℕ)
        → IsCutText (gives_cached C.broke C.reads C.made images) s stream text t
        → BeginsText (gives_cached C.broke C.reads C.made images) s stream text }
    ensures same { (images : List Image) (s t : C) (stream text : List ℕ)
        → IsCutText (gives_kept C.broke images) s stream text t → BeginsText (gives_kept C.broke images) s stream text }
{}
