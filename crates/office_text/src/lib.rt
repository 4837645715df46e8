//! Office texts: what is played with a server, relays and computers. And the one that is made for a number of computers.
#![tactic(auto)]

mod book_reader;
mod computer_reader;
mod content_reader;
mod error;
mod field_reader;
mod law;
mod made;
mod name_reader;
mod order;
mod order_list;
mod order_reader;
mod orders_so_far;
mod reader;
mod short_reader;
mod target_reader;
mod text_reader;
mod word;

pub use error::OfficeError;
pub use law::{an_office_is_read, one_office};
pub use made::make;
pub use order::Order;
pub use order_list::Orders;
pub use reader::read_office;
