//! Why runs don't fit the jobs that are out.

/// Why runs are not one for each job that is out: of several reasons the first.
#[derive(Clone, Copy, Drop)]
pub enum Misfit {
    /// A run is of no job that is out.
    Stranger,
    /// A job's run comes twice.
    Double,
    /// A job has no run.
    Missing,
}
