// What families of a sheet are asked for.

// The parts that a clique has, and the lowest weight that its links may have.
#[derive(Clone, Copy, Debug, PartialEq, Eq)]
pub struct Asked {
    pub k: usize,
    pub t: u16,
}
