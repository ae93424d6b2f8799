use std::collections::LinkedList;

// Which numbers a deque is for: its tasks are those from the start up to but not including the end, and the end marks are as many as there
// are passes, from the end on.
pub struct About {
    pub start: u64,
    pub end: u64,
    pub passes: u64,
}

// What a pass knows of one deque: how far it is filled, the weight of the right to know the whole, the numbers that came out of it to this
// pass, and whether it is full. No value of it is made.
pub struct View {
    pub about: About,
    pub pushed: u64,
    pub weight: u64,
    pub list: LinkedList<u64>,
    pub full: bool,
}
