//! Records in order: `sort`, `uniq` and `top` (LogsQL, "Pipes").
#![tactic(auto)]

mod column;
mod dictionary;
mod first;
mod group;
mod groups;
mod kept;
mod ranks;
mod records;
mod sort;
mod tally;
mod top;
mod uniq;
mod values;

pub use sort::{sort_recs, sort_recs_seeded, sorted_places, sorted_places_seeded};
pub use tally::Tally;
pub use top::{top_recs, top_recs_seeded};
pub use uniq::{uniq_recs, uniq_recs_seeded};
