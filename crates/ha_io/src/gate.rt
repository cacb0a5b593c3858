// What stands before each line of a worker.

/// What stands before each line of a worker. Workers on several threads share it.
pub trait Gate: Sync {
    /// Is called before a worker takes its turn for this line, counted from 0.
    fn before(&self, worker: u32, line: u64);
}

/// The gate that lets every worker pass.
#[derive(Debug, Drop)]
pub struct OpenGate {}

impl OpenGate {
    pub fn make() -> OpenGate {
        OpenGate {}
    }
}

impl Gate for OpenGate {
    fn before(&self, _worker: u32, _line: u64) {}
}
