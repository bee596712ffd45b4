//! What is shown: the entries, and the beginning of the history that they are.

use crate::history::Front;
use jk_store::Entry;
use left_right::Absorb;
use std::alloc::AllocError;
use std::collections::LinkedList;
use std::sync::Arc;

/// The entries, in the order in which they were added, and the beginning of the history that they
/// are. There are two copies.
#[derive(Drop)]
pub struct Shown {
    pub(crate) entries: Vec<Arc<Entry>>,
    pub(crate) front: Front,
}

/// Which history it is. No value of it is made.
pub struct Stamp {
    pub number: u64,
    pub log_name: u64,
    pub cells_name: u64,
}

/// What the two copies have in common. No value of it is made.
pub struct Common {
    pub entries: LinkedList<Entry>,
    pub stamp: Stamp,
    pub log: LinkedList<Entry>,
}

/// One change of what is shown.
#[derive(Drop)]
pub enum Change {
    Entry(Arc<Entry>),
    Front(Front),
}

impl Absorb<Change> for Shown {
    ghost use Rattle.jk_hall.specs.Sights.{common_of, applied};

    type State = Common;

    ghost state = { common_of };

    ghost applied = { applied };

    fn absorb_first(&mut self, operation: &Change, _other: &Shown) -> Result<(), AllocError> {
        match operation {
            Change::Entry(entry) => {
                let another = Arc::try_clone(entry)?;
                self.entries.push(another)?;
                Ok(())
            }
            Change::Front(front) => {
                self.front = front.again();
                Ok(())
            }
        }
    }
}
