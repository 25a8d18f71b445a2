//! What a search is to answer.

/// What a capture shows.
#[derive(Clone, Copy)]
pub enum Shown {
    Text(&'static str),
    Place(usize),
}

/// What is found: the start and the end of the match with its captures, or nothing.
#[derive(Clone, Copy)]
pub enum Wanted {
    Found(usize, usize, &'static [Shown]),
    Nothing,
}
