use spread::Spread;

/// How days are computed. What a run that is done has done outside does not depend on it, but for what the gate does; when it is done does.
#[derive_where(Clone, Copy)]
pub struct Execution<'a, G> {
    /// In how many partitions of the network, by how many workers.
    pub spread: Spread,
    /// Whether the events of a day are written while it runs: those of a second before the next one where one worker computes it or there
    /// is one partition, and else those of a span of seconds before the span behind the next one (`collected_day: SPAN_SECONDS`).
    pub streams: bool,
    /// What is passed before each second of a partition.
    pub gate: &'a G,
}
