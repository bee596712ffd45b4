//! What a writer tells.

use crate::history::Front;

/// The list that a writer has published when it told it. It takes no memory.
#[derive(Drop)]
pub struct Told {
    pub(crate) front: Front,
}
