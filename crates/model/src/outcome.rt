// How a job ended: its changes were kept, or undone.
#[derive(Clone, Copy, PartialEq, Eq, Debug)]
pub enum Outcome {
    Committed,
    Undone,
}
