//! What commands that change a table bring to it, what is known of their inputs for a sentence, and what they say of what they did.
#![tactic(auto)]

mod batch_names;
mod done;
mod heads;
mod loading;
mod offers;
mod said;

pub use done::{Done, Reply};
pub use heads::{Head, Headed, Heads, schema_in};
pub use loading::{DRAWS, load_of, random_words};
pub use offers::{OfferTables, batches_of, read_offers};
pub use said::{CHANGED, UNCHANGED, say, say_left, say_line};
