// What traffic files and logs are written with: the numbers of a file, the lines of a log, and the checksum.
#![tactic(auto)]

pub mod input;
pub mod line;
pub mod sum;
