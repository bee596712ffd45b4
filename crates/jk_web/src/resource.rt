//! What the path of a request target names.

ghost use Rattle.std.specs.Prelude.{◌≡◌, ◌==◌, List, ℕ, take, drop, All};
ghost use Rattle.std.specs.List.{position_or_len};
ghost use Rattle.jk_web.specs.Resources.{path_of, query_of, IsPathSegment, resource_at, among, seen};

/// What a path names.
#[derive(Clone, Copy, Debug)]
pub enum NamedResource<'a> {
    /// The list of images.
    Listing,
    /// The image of this name.
    Whole(&'a [u8]),
    /// A window of the image of this name.
    Window(&'a [u8]),
    /// Nothing, whatever images there are.
    Nowhere,
}

/// The bytes before the first that is `mark`, and the bytes from it on.
fn cut_at(bytes: &[u8], mark: u8) -> (&[u8], &[u8])
    ensures before { result.0.now ≡ take (position_or_len (λ b. b == mark) bytes.now) bytes.now }
    ensures after { result.1.now ≡ drop (position_or_len (λ b. b == mark) bytes.now) bytes.now }
{
    match bytes.iter().position(|&byte| byte == mark) {
        Some(at) => (&bytes[..at], &bytes[at..]),
        None => (bytes, &[]),
    }
}

/// The path of a request target, and its query.
pub(crate) fn split_target(target: &[u8]) -> (&[u8], &[u8])
    ensures path { result.0.now ≡ path_of target.now }
    ensures query { result.1.now ≡ query_of target.now }
{
    let (path, rest) = cut_at(target, b'?');
    match rest {
        [] => (path, rest),
        [_, query @ ..] => (path, query),
    }
}

/// What a path names: `/images`, `/images/NAME` or `/images/NAME/window`. Bytes are taken as they
/// were sent.
///
/// Whether there is an image of that name is left to the caller: the contract says what the path
/// names, whatever names without a slash there are.
pub fn resource_of(path: &[u8]) -> NamedResource<'_>
    ensures { (names : List (List ℕ)) → All IsPathSegment names → resource_at path.now names ≡ among names (seen result) }
{
    if path == b"/images".as_slice() {
        return NamedResource::Listing;
    }
    if !path.starts_with(b"/images/") {
        return NamedResource::Nowhere;
    }
    let (name, rest) = cut_at(&path[8..], b'/');
    if rest.is_empty() {
        NamedResource::Whole(name)
    } else if rest == b"/window".as_slice() {
        NamedResource::Window(name)
    } else {
        NamedResource::Nowhere
    }
}
