//! A link.

/// A source and a sink that belong together, as the two ways of a connection.
#[derive(Debug, Drop)]
pub struct Link<S, W> {
    pub source: S,
    pub sink: W,
}
