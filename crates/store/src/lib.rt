// The register store (000 §5 over the channel of §6): a start from a placement and the ten steps. The state lies in two arrays of words that
// the caller lends, the registers' and the channel's; tables/specs/Layout says where each thing lies in the first, and nothing here reads the
// second.
#![tactic(auto)]

mod answers;
mod asking;
mod deliver;
mod perform;
mod send;
mod steps;
mod traffic;

pub use steps::{advance, step};
pub use tables::begin::start;
pub use tables::panel::{copies, doing_of, requests, value};
pub use tables::sized::well_sized;
