//! All stores of the service over one yard of disks: two disks for the map, two for the names, and two for each server.
#![tactic(auto)]

mod cores;
mod laws;
mod making;

pub use cores::{Core, InitRefused};
pub use laws::{
    cores_hold_courses, courses_are_reopened, courses_stay, openings_are_found,
    server_steps_keep_courses, steps_have_images,
};
