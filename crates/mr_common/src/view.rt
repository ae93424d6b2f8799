use std::collections::LinkedList;

// What a pass knows: the weight of the right to know the whole, the pairs that it won, and the keys that it was refused. No value of it is
// made.
pub struct View {
    pub weight: u64,
    pub won: LinkedList<(u64, i64)>,
    pub refused: LinkedList<u64>,
}

// How many words and passes an array has.
#[derive(Drop)]
pub struct Extent {
    pub words: u64,
    pub passes: u64,
}
