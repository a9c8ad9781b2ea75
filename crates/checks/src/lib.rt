// Tests of lists of frames in their places and of the pages of frames, by which a pool of any policy is found sound: on lists and arrays, whatever pool they
// come from. Each test is lent them: an array that is handed over is copied.
#![tactic(auto)]

pub mod frame_test;
pub mod page_test;
pub mod tails;
