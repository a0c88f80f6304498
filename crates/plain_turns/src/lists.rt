use traffic::Row;

/// The rows of a link: its queue, its buffer, its wait list and its bay.
#[derive(Drop)]
pub struct LinkVehicles {
    pub queue: Vec<Row>,
    pub buffer: Vec<Row>,
    pub wait: Vec<Row>,
    pub bay: Vec<Row>,
}
