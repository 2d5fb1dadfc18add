// Circles of threads that wait for one another's resources.
//
// In: steps, each of a thread that holds units of one resource and waits for units of another. Out: each circle of
// resources, from the one with the least number on: for each of them, some thread holds units of it and waits for the
// next one; for the last, the next one is the first. These are the cycles of the resource-allocation graphs in
// textbooks on operating systems. `circles_of` returns exactly the circles (`IsCircle` of specs/Circles.antt).
#![tactic(auto)]

mod circles;
mod steps;

pub use circles::{Circle, circles_of};
pub use steps::Step;
