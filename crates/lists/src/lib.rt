// Lists of texts: the room that they leave, and their bytes.
#![tactic(auto)]

pub mod joined;
pub mod list_rooms;
