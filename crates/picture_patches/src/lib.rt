// A picture resized, or a part of it as it is, cut into patches.
#![tactic(auto)]

pub mod frame;
mod nest;
pub mod pixel;
mod places;
mod rows;
mod strip;
mod view;
mod weigh;
