use crate::logical::Logical;

/// A line as a reader takes it.
#[derive(Drop)]
pub enum ReadLine<'a> {
    /// The line, unfolded.
    Whole(Logical<'a>),
    /// The number of a folded content line whose property is not read.
    PassedOver(u64),
}
