/// Whether a value can go to another thread and be read by several: true where this compiles.
pub fn can_be_shared<T: Send + Sync>(_value: &T) -> bool {
    true
}
