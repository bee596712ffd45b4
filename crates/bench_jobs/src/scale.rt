//! How large a job is.

/// Whether a job is as large as its users have it, or a small trial.
#[derive(Clone, Copy)]
pub(crate) enum Scale {
    Whole,
    Trial,
}

impl Scale {
    /// The size of an image.
    pub(crate) fn size(self, width: usize, height: usize) -> (usize, usize) {
        match self {
            Scale::Whole => (width, height),
            Scale::Trial => (width / 16, height / 16),
        }
    }

    /// How often something is done.
    pub(crate) fn count(self, count: u32) -> u32 {
        match self {
            Scale::Whole => count,
            Scale::Trial => count / 16 + 1,
        }
    }
}
