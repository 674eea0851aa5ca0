// Joining two networks. Both journals are run alone over the working table, every seam is looked at, and only where it is known that the whole
// result fits is anything stored in the buffer that the caller lends.
#![tactic(auto)]

pub mod alone;
pub mod joined;
pub mod raising;
pub mod seams;

pub use joined::join_into;
pub use seams::Seam;
