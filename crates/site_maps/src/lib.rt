//! Sites that are read from maps. Its one idea: a map says one thing of each address and of each origin, or its first bad
//! line is named. The meaning is written in `specs/`: `Lines` what a line says, `Maps` what the lines say together and
//! which are good, `MapSites` the site. Its tests are in `site_tests`.
#![tactic(auto)]

mod field;
mod known;
mod map_line;
mod map_site;
mod open_robots;
mod reading;
mod rule_kind;
mod steady_map;

pub use map_site::MapSite;
pub use site_inputs::{
    InputFault, InputLineFault, KeptRules, first_field, read_address, read_origin,
};
pub use steady_map::SteadyMap;
