/// What a list goes on with: one more, or its end, and whether a mark stands there.
#[derive(Drop)]
pub enum Turn<T> {
    /// One more.
    Item(T),
    /// The end, and whether the mark stands there.
    Last(bool),
}
