//! Lists of lists.

ghost use Rattle.std.specs.Prelude.{◌≡◌, ◌++◌, [], replicate, IfErr, OnOk};
ghost use Rattle.jk_math.specs.Memory.{IsMemory};
ghost use Rattle.jk_math.specs.Lists.{lists_of};

use jk_math::Fault;
use std::alloc::Global;

/// Appends so many empty lists.
pub(crate) fn add_lists<T: Drop>(
    alloc: Global,
    count: usize,
    lists: &mut Vec<Vec<T>>,
) -> Result<(), Fault>
    ensures lists { OnOk result (lists_of lists.new.items ≡ lists_of lists.old.items ++ replicate count []) }
    ensures memory { IfErr result IsMemory }
{
    lists.reserve_exact(count)?;
    for _ in 0..count {
        lists.push(Vec::new(alloc))?;
    }
    Ok(())
}
