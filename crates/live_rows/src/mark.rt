//! What is known of a row.

/// What is known of a row while rows are cut.
#[derive(Clone, Copy)]
pub struct Mark {
    /// How many live rows that are not cut have the row as a side; one whose sides are equal counts once.
    pub parents: u32,
    /// The exclusive or of the numbers of these rows.
    pub mixed: u32,
    pub root: bool,
    pub live: bool,
    pub cut: bool,
    /// A random leaf, which is known once it was looked at, or cut.
    pub fresh: bool,
    /// Has stood among the rows that may serve a cut.
    pub queued: bool,
    /// Stands among the rows found.
    pub touched: bool,
}

impl Mark {
    /// Nothing is known.
    pub const EMPTY: Mark = Mark {
        parents: 0,
        mixed: 0,
        root: false,
        live: false,
        cut: false,
        fresh: false,
        queued: false,
        touched: false,
    };
}
