//! A whole table over the link: the batch of records, drawn from the table by a cursor, and its loading.
#![tactic(auto)]

mod cursor;
mod laws;
mod loading;

pub use cursor::{Cursor, batch_len};
pub use laws::{batch_room_law, steady_batch_law, whole_table_law};
pub use loading::{Loaded, Loading, OutOfPlace};
