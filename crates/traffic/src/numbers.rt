use rows::Dwelling;

/// What a link's turn takes of the numbers: the room of its buffer, in vehicles, the credit that it
/// gains in a second, and the dwell times.
#[derive(Clone, Copy, Debug, PartialEq, Eq)]
pub struct Rules {
    pub room: u32,
    pub gain: u32,
    pub dwell: Dwelling,
}
