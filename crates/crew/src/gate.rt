//! Gates: what a worker passes before it runs a job.

/// What a worker passes before it runs a job. Workers in several threads pass a gate that is `Sync`.
pub trait Gate: Drop {
    /// Returns once the worker may run the job of this number.
    fn pass(&self, job: u32);
}

/// A gate that holds nobody.
#[derive(Clone, Copy, Default)]
pub struct Ungated;

impl Gate for Ungated {
    fn pass(&self, _job: u32) {}
}

/// A gate of the caller's making, of any type.
pub type BoxedGate = Box<dyn Gate + Send + Sync>;

impl Gate for BoxedGate {
    fn pass(&self, job: u32) {
        (**self).pass(job)
    }
}
