/// How an event reaches its target (Muen's event modes).
#[derive(Clone, Copy, Debug, PartialEq, Eq)]
pub enum EventMode {
    /// Deliverable at any turn of the target.
    Asap,
    /// Deliverable at the first tick of a minor frame, and after an exit.
    Async,
    /// The source raises it at itself; spelled `self` in a policy.
    Own,
    /// The target also becomes the active member of its scheduling group.
    Switch,
}
