// What a sitting shows its reader: pages and peeks.
#![tactic(auto)]

pub mod lent;
mod look;
pub mod page;
pub mod paging;
pub mod peek;
