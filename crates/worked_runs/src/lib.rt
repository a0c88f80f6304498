//! Tests of whole runs that need an outside which is made for them: reads, writes and saves that fail, kept rows that no run has saved, gates
//! that hold a partition, and a reader who follows events.csv. Above the top call; tests alone. Other runs are folders of `examples/`.
#![tactic(auto)]

#[cfg(test)]
mod cases;
#[cfg(test)]
mod failures;
#[cfg(test)]
mod following;
#[cfg(test)]
mod gates;
#[cfg(test)]
mod kept_rows;
#[cfg(test)]
mod saves;
