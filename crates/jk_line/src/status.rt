//! How a command ended.

/// How a command ended, as the status of the program tells it.
#[derive(Clone, Copy, Debug, PartialEq, Eq)]
pub enum Status {
    /// It did what was asked.
    Done,
    /// It answered a fault, or what it checked isn't as it should be.
    Refused,
    /// The command line is wrong, or a file that it names to compare with.
    WrongLine,
}

impl Status {
    /// The status of the program.
    pub fn code(self) -> u8 {
        match self {
            Status::Done => 0,
            Status::Refused => 1,
            Status::WrongLine => 2,
        }
    }
}
