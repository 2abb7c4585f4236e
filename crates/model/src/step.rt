// The steps that a job is made of, and a call: one step asked of one slot.
#[derive(Clone, Copy)]
pub enum Step<V> {
    Begin,
    // of a place
    Note(u32),
    // of a place
    Load(u32),
    // of a place
    Acquire(u32),
    // of a place, and the value for it
    Store(u32, V),
    Check,
    Commit,
    Advance,
    Abort,
}

#[derive(Clone, Copy)]
pub struct Call<V> {
    // any number may be asked for; there are eight slots
    pub slot: u32,
    pub step: Step<V>,
}
