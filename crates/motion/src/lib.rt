// The two motion fields: the saved one, which a frame's records become, and the projected one, into
// which the saved fields of a frame's references are loaded.
#![tactic(auto)]

pub mod landing;
pub mod loading;
pub mod saving;
