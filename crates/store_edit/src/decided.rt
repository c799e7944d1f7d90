use store_kv::Change;

/// What judging an edit came to that isn't refused: what it answers, and the changes that make it.
#[derive(Drop)]
pub struct Decided<A> {
    /// What it answers once it is made.
    pub answer: A,
    /// The first change first.
    pub changes: Vec<Change>,
}
