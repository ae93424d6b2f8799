use std::collections::LinkedList;

// What a pass knows: how many tasks and queues there are, its weight of the right to know the whole, the tasks that it was given, and the
// queues that it has seen at their end. No value of it is made.
pub struct View {
    pub tasks: u64,
    pub queues: u64,
    pub weight: u64,
    pub given: LinkedList<u64>,
    pub ends: LinkedList<u64>,
}
