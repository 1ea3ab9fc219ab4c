//! What every index of rows promises, what a search puts its hits into, and the plain index.
//!
//! Its contract is the trait `Index`: contracts see an index as a schema and a finite map from id to row. A search puts its
//! hits into a `Hits`, which contracts see as a list with an item for each row: `Found` of be_model has the rows themselves,
//! each a further reference; `Ids` has their ids, and keeps no row. `ListIndex` keeps the rows in an ordered map and tests each
//! of them. It stands on be_model. Begin reading at src/promise.rt and src/hits.rt.
#![tactic(auto)]

mod hits;
mod id_bits;
mod ids;
mod promise;
mod rows;
mod wanted;

pub use hits::Hits;
pub use ids::Ids;
pub use promise::Index;
pub use rows::ListIndex;
