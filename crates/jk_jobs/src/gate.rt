//! Who is told of jobs.

/// Is told when a job begins and when it has ended, by the thread that does it. Tests see by it
/// that jobs are done side by side.
pub trait Gate {
    /// Job number `job`, counted from 0, begins.
    fn began(&self, job: usize);

    /// Job number `job` has ended.
    fn ended(&self, job: usize);
}

/// The gate that does nothing.
#[derive(Clone, Copy, Debug)]
pub struct Open;

impl Gate for Open {
    fn began(&self, _job: usize) {}

    fn ended(&self, _job: usize) {}
}
