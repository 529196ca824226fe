// The block of 2,188 bytes: its layout and its reads.
#![tactic(auto)]

pub mod layout;
mod read;

pub use read::{
    bar, count, find, giver, is_pair, is_retired, kind, marks, need, opens, place, read_two,
    receiver, record_place, records, retired, subjects, weight, well_formed,
};
