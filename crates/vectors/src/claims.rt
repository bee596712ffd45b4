//! What a test claims. `equal(found, due).expect(&rt, "columns")` costs the proof of a test two calls
//! without a branch; an `assert_eq!` of its own costs it the comparison and the text of both values.

use std::fmt::{self, Debug, Formatter, Write};

/// Two values that differ, told as by an assertion. A test can't let it go but by `expect`.
pub struct Different<T> {
    found: T,
    due: T,
}

impl<T: Debug> Debug for Different<T> {
    fn fmt<W: Write>(&self, f: &mut Formatter<W>) -> fmt::Result {
        write!(f, "\n  left: {:?}\n right: {:?}", self.found, self.due)
    }
}

/// Two values that differ in one of several cases.
pub struct DifferentAt<C, T> {
    case: C,
    found: T,
    due: T,
}

impl<C: Debug, T: Debug> Debug for DifferentAt<C, T> {
    fn fmt<W: Write>(&self, f: &mut Formatter<W>) -> fmt::Result {
        write!(
            f,
            "{:?}\n  left: {:?}\n right: {:?}",
            self.case, self.found, self.due
        )
    }
}

/// Whether what was found is what is due.
pub fn equal<T: PartialEq + Debug + Copy>(found: T, due: T) -> Result<(), Different<T>> {
    if found == due {
        Ok(())
    } else {
        Err(Different { found, due })
    }
}

/// Whether what was found is what is due, in this case of several.
pub fn equal_at<C: Debug + Copy, T: PartialEq + Debug + Copy>(
    case: C,
    found: T,
    due: T,
) -> Result<(), DifferentAt<C, T>> {
    if found == due {
        Ok(())
    } else {
        Err(DifferentAt { case, found, due })
    }
}

#[cfg(test)]
mod tests {
    use super::{Different, DifferentAt, equal, equal_at};

    /// Whether two numbers are told to differ, with and without a case.
    fn told(found: u32, due: u32) -> (bool, bool) {
        let plainly = match equal(found, due) {
            Ok(()) => false,
            Err(
                Different {
                    found: left,
                    due: right,
                },
            ) => left == found && right == due,
        };
        let in_a_case = match equal_at("a case", found, due) {
            Ok(()) => false,
            Err(
                DifferentAt {
                    case,
                    found: left,
                    due: right,
                },
            ) => case == "a case" && left == found && right == due,
        };
        (plainly, in_a_case)
    }

    #[test]
    fn what_differs_is_told(rt: HostRuntime) {
        assert!(rt; told(1, 2) == (true, true));
        assert!(rt; told(2, 1) == (true, true));
        assert!(rt; told(2, 2) == (false, false));
    }

    /// Whether two lists are told to differ.
    fn lists_told(found: &[u32], due: &[u32]) -> bool {
        match equal(found, due) {
            Ok(()) => false,
            Err(
                Different {
                    found: _found,
                    due: _due,
                },
            ) => true,
        }
    }

    #[test]
    fn lists_that_differ_are_told(rt: HostRuntime) {
        assert!(rt; !lists_told(&[1, 2], &[1, 2]));
        assert!(rt; lists_told(&[1, 2], &[1, 3]));
        assert!(rt; lists_told(&[0, 2], &[1, 2]));
        assert!(rt; lists_told(&[1, 2], &[1]));
        assert!(rt; lists_told(&[], &[1]));
    }
}
