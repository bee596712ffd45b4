//! When files that were read are judged.

ghost use Rattle.std.specs.Prelude.{◌≡◌, ◌*◌, ◌^◌, ◌<◌, ◌≤◌, false, true};

/// How many bytes are read for each worker before they are judged, unless one file has more.
const BATCH_SIZE: usize = 1 << 25;

/// How many files are read for each worker before they are judged.
const BATCH_FILES: usize = 64;

/// Whether so many files, of so many bytes together, are enough for so many workers: there is one
/// for each at least, and so much for each that it is to be judged now.
pub(crate) fn are_enough(workers: usize, files: usize, size: usize) -> bool
    ensures some { result ≡ true → workers ≤ files }
    // Of those that aren't judged yet no more is held.
    ensures few { result ≡ false → workers ≤ files → (files < 64 * workers) × (size < 2 ^ 25 * workers) }
{
    let most_files = workers.saturating_mul(BATCH_FILES);
    let most_size = workers.saturating_mul(BATCH_SIZE);
    workers <= files && (most_files <= files || most_size <= size)
}
