//! Laws of the definitions. Each function does nothing: its contract is the law.

pub mod bridges;
pub mod greetings;
pub mod hellos;
pub mod links;
pub mod messages;
pub mod owing;
pub mod promises;
pub mod records;
pub mod refusals;
pub mod reports;
pub mod requests;
pub mod scripts;
pub mod services;
pub mod settings;
pub mod tokens;
pub mod transcripts;
pub mod wholes;
pub mod wire;
