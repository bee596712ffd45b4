//! Workers.

ghost use Rattle.std.specs.Prelude.{◌≤◌};

/// So many workers, 1 to 64, which do jobs side by side as far as threads can be had.
#[derive(Drop)]
pub struct Workers<'a, R> {
    /// What gives threads.
    pub rt: &'a R,
    /// How many workers there are.
    pub count: usize,
    pub ghost some: { 1 ≤ count },
    pub ghost few: { count ≤ 64 },
}
