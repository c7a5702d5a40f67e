//! What a part of a world holds.

/// The value of a part: the directory, a declared node, or the inbox of one.
#[derive(Debug, Drop)]
pub enum WorldPart<D, N, I> {
    Directory(D),
    Node(N),
    Inbox(I),
}
