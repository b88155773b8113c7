//! What an exchange is asked for and what is written of it: settings, scripts and reports.
#![tactic(auto)]

mod command;
mod config;
mod fit;
mod line;
mod report;
mod script;
mod tokens;

pub use command::{Command, read_command};
pub use config::{Config, default_config};
pub use fit::{enough, fits};
pub use report::{put_block, put_entries, put_ok_line, put_report, put_token_line};
pub use script::{MAX_SCRIPT, Script, ScriptError, cut_line, read_script};
pub use tokens::{TokenCommand, TokenCommands, TokenLimits, read_tokens};
