//! Where a command writes.

/// What a command writes to.
#[derive(Clone, Copy, Debug)]
pub struct Destination<'a> {
    /// The name of a file, or `-` for standard output.
    pub name: &'a str,
    /// The name of the input, if that is a file: the output may not be the same file.
    pub input: Option<&'a str>,
    /// Whether a file that is there is never replaced.
    pub is_new: bool,
}

/// Standard output.
pub(crate) const STANDARD_OUTPUT: Destination<'static> = Destination {
    name: "-",
    input: None,
    is_new: false,
};

impl<'a> Destination<'a> {
    /// An output that may take the place of the input.
    pub(crate) fn any(name: &'a str, is_new: bool) -> Destination<'a> {
        Destination {
            name,
            input: None,
            is_new,
        }
    }

    /// An output that may not be the input. No file is standard input.
    pub(crate) fn beside(input: &'a str, name: &'a str, is_new: bool) -> Destination<'a> {
        let input = if input == "-" { None } else { Some(input) };
        Destination {
            name,
            input,
            is_new,
        }
    }
}
