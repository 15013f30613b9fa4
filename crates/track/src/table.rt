// The rows of a table of lines, for any kind of fault set.

/// The good circuit's answer, and the faults whose circuits have the other one.
#[derive(Clone, Copy)]
pub struct Track<S> {
    pub good: bool,
    pub differ: S,
}

/// The two tracks of a line: whether it may be 1, and whether it may be 0.
#[derive(Clone, Copy)]
pub struct Tracks<S> {
    pub one: Track<S>,
    pub zero: Track<S>,
}

/// A row of the table: the tracks that are held, and a draft of the next ones.
#[derive(Clone, Copy)]
pub struct Line<S> {
    pub held: Tracks<S>,
    pub draft: Tracks<S>,
}
