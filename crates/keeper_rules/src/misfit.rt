/// The first rule that tables break, by its number from 1 to 7, and the number of the first row
/// that breaks it, from 1 in the order of its table's keys.
#[derive(Clone, Copy, Debug, PartialEq, Eq)]
pub struct Misfit {
    pub rule: u32,
    pub row: u64,
}
