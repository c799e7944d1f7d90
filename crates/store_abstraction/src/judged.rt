/// What an operation returns, and whether the draft holds changes that go with it.
#[derive(Drop)]
pub enum Judged<T> {
    /// Nothing is to be changed.
    Same(T),
    /// The draft is to be committed.
    Changed(T),
}
