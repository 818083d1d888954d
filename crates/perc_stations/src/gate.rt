// What stations pass between entering and forwarding.

/// What each station passes between entering its reader and forwarding. Stations may meet here.
pub trait Gate: Sync {
    /// The station of this worker passes.
    fn pass(&self, worker: usize);
}

/// A gate that holds nobody up.
pub struct OpenGate;

impl Gate for OpenGate {
    fn pass(&self, _worker: usize) {}
}
