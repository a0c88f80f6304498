ghost use Rattle.std.specs.Prelude.{◌≡◌};

/// Called before each second of a partition that is performed, as a place to wait or to look on.
pub trait Gate: Sync {
    /// Promises nothing but to return.
    fn pass(&self, partition: u32, second: u32);
}

/// A gate that returns at once.
#[derive(Drop)]
pub struct OpenGate;

impl OpenGate {
    pub fn new() -> Self
        ensures { result ≡ record {} }
    {
        OpenGate
    }
}

impl Gate for OpenGate {
    fn pass(&self, _partition: u32, _second: u32) {}
}
