//! What a partition of the network has, sends and tells, and in which orders partitions may advance:
//! the definitions over which the day in parts is proved to be the day.
#![tactic(auto)]
