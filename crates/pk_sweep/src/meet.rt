/// What is told when the halves of a sweep begin. It changes no answer: a test may wait in it to see
/// that both halves run at once.
pub trait Meet: Sync {
    /// Called once at the start of each half, with 0 for the first and 1 for the second.
    fn enter(&self, half: u32);
}

/// Does nothing.
#[derive(Clone, Copy, Debug)]
pub struct NoMeet;

impl Meet for NoMeet {
    fn enter(&self, _half: u32) {}
}
