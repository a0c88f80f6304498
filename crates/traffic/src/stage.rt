/// Where on its link a vehicle stands.
#[derive(Clone, Copy, Debug, PartialEq, Eq)]
pub enum Stage {
    /// It drives along the link; its second is the earliest one in which it may leave.
    Queue,
    /// It is about to pass the end node; its second is since when it has been at the front, and 0
    /// behind the front.
    Buffer,
    /// It waits to enter the traffic of the link, where it starts or comes back from the bay; its second is 0.
    Wait,
    /// It stands at a stop; its second is the one in which it may go on.
    Bay,
}
