//! Workers and who is told of what they do.

use jk_tile::Workers;

/// Workers, and the gate that is told of the jobs that they do.
#[derive(Drop)]
pub struct Team<'a, R, G> {
    /// Who they are.
    pub workers: &'a Workers<'a, R>,
    /// Who is told of their jobs.
    pub gate: &'a G,
}
