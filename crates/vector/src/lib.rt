// Motion vectors: the type, projection over a distance (7.9.3), lower precision (7.10.2.10), and
// the distance of two order hints (get_relative_dist).
#![tactic(auto)]

pub mod hint;
pub mod mv;
pub mod precision;
pub mod projection;
