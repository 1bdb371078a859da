// What the caller picks in a call on the objective or in sizing; it travels by value beside the list.

#[derive(Clone, Copy)]
pub struct Picks {
    // goals without tolerance: the strict list of objectives
    pub strict: bool,
}
