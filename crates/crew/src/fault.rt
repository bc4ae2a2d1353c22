//! Why a crew gave up.

/// Why a crew gave up.
#[derive(Clone, Copy, PartialEq, Eq, Debug)]
pub enum CrewFault {
    /// 0: memory was refused.
    Memory,
    /// 1: no thread could be started.
    NoThread,
    /// 2: the workers are gone, or a run never came back.
    Lost,
    /// 3: a run came back that is of no job of this call, or that came back before.
    Misfit,
}
