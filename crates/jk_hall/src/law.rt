//! What holds of every run of a hall, and of every connection that a reader attends to.

ghost use Rattle.std.specs.Prelude.{◌≡◌, ◌≤◌, ℕ, List, ◌∷◌, ◌++◌, Some, slice_get};
ghost use mathlib.Core.List.{IsPrefix};
ghost use Rattle.jk_store.specs.declared.entry.Entry.{Entry};
ghost use Rattle.jk_web.specs.Images.{Image};
ghost use Rattle.jk_web.specs.Serving.{IsCutText, BeginsText};
ghost use Rattle.jk_hall.specs.declared.reader.Reader.{Reader};
ghost use Rattle.jk_hall.specs.Behind.{GivesFirst, GivesFirstKept};
ghost use Rattle.jk_hall.specs.Runs.{Event, entered, published, LookedAt, looked_at, looks};

use jk_store::Shelf;

/// Over every list of events, by any readers in any order, of two lists that were looked at the one
/// that was looked at later begins with the other; and each is the opening list and then all that
/// was published before.
pub fn lists_looked_at_grow()
    ensures grow { (opening : List Entry) (events : List Event) (i j : ℕ) (a b : LookedAt) → i ≤ j
        → slice_get (looks opening events) i ≡ Some a → slice_get (looks opening events) j ≡ Some b
        → IsPrefix a.list b.list }
    ensures all { (opening : List Entry) (before after : List Event) (reader : ℕ)
        → looks opening (before ++ entered reader ∷ after)
        ≡ looks opening before
        ++ looked_at reader (opening ++ published before) ∷ looks (opening ++ published before) after }
{}

/// Where a write has failed, what was written to a connection is the beginning of a text of all that
/// is due: of the replies to all requests that were read, up to the first that closes or to the
/// first bad one.
pub fn cut_texts_begin_whole_ones<S: Shelf>()
    ensures any { (images : List Image) (s t : Reader × S) (stream text : List ℕ)
        → IsCutText (GivesFirst S.failed S.gave S.gave_at images) s stream text t
        → BeginsText (GivesFirst S.failed S.gave S.gave_at images) s stream text }
    ensures same { (images : List Image) (s t : Reader × S) (stream text : List ℕ)
        → IsCutText (GivesFirstKept S.failed S.gave S.gave_at images) s stream text t
        → BeginsText (GivesFirstKept S.failed S.gave S.gave_at images) s stream text }
{}
