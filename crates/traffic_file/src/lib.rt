// Traffic files: the header, and the records in order. Where a file ends, is cut or is damaged, the log's last line is given.
#![tactic(auto)]

pub mod header;
pub mod reading;
pub mod record;
