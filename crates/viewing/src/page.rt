// What a page answers.

// How many outputs are visible, and whether the end mark is set: the sitting is halted and its pc tag is visible. The
// outputs stand at the front of a list that the caller lends, so they are told by their number.
#[derive(Clone, Copy)]
pub struct Page {
    pub outputs: usize,
    pub end_mark: bool,
}
