//! How a file gets the name of an image.

/// How a file that was written gets the name of an image.
#[derive(Clone, Copy, Debug, PartialEq, Eq)]
pub(crate) enum Naming {
    /// In place of any file that has it.
    Replacing,
    /// If nothing has it.
    New,
}
