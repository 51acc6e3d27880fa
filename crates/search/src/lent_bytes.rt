// A search on lent bytes: its question in 24 of them, its candidates in 96.
pub mod question;
pub mod store;
pub mod whole;
