ghost use Rattle.std.specs.Prelude.{◌≡◌, ◌≤◌, length, IfOk, IfErr};
ghost use Rattle.qh_spec.specs.Lines.{lines};
ghost use Rattle.qh_spec.specs.Script.{empty_script, max_script, IsTaken, AreTaken, IsScript};
ghost use Rattle.qh_script.specs.Script.{RefusesKnown, RefusesLines, RefusesScript};

mod apply;
mod last;
mod lines;
mod outline;
mod owned;
mod settings;
mod untaken;

use crate::{Config, default_config, fits};
pub use lines::cut_line;
use outline::fault_of;
use qh_base::Memory;
use qh_service::Message;
use qh_spec::Upset;
use std::alloc::Global;
use std::marker::Model;
pub(crate) use untaken::Untaken;

/// The greatest length of a script, in bytes.
pub const MAX_SCRIPT: usize = 16_777_216;

/// What a script asks for.
#[derive(Drop)]
pub struct Script {
    pub requests: Vec<Message>,
    pub config: Config,
    /// How many rounds the exchange has at most, where a line says it.
    pub rounds: Option<u64>,
    /// How many milliseconds a round lasts.
    pub step: u64,
    /// What the link does to the datagrams.
    pub schedule: Vec<Upset>,
}

impl Model for Script {
    ghost use Rattle.qh_spec.specs.Script.{Script as PlainScript};

    ghost Value = { PlainScript };

    ghost view = { λ s. record { requests = s.requests.items; config = s.config; rounds = s.rounds; step = s.step; schedule = s.schedule.items } };
}

/// Why a script wasn't read.
#[derive(Clone, Copy)]
pub enum ScriptError {
    /// This line, counted from 1, is refused: 0 for a text that is too long, one past the lines where the settings don't
    /// fit or no limits are given.
    Refused(usize),
    Memory,
}

impl From<Memory> for ScriptError {
    ghost use Rattle.std.specs.Prelude.{◌≡◌};
    ghost use Rattle.qh_script.specs.declared.script.ScriptError.TheVariants as variants;

    ghost from_gives = { λ _ e. e ≡ variants.Memory };

    fn from(_: Memory) -> ScriptError {
        ScriptError::Memory
    }
}

/// What a script asks for. If memory is wanting for it, the text is looked at again without any, so that a fault is
/// answered in its place.
pub fn read_script(alloc: Global, text: &[u8]) -> Result<Script, ScriptError>
    ensures script { IfOk result (IsScript text.now) }
    ensures refused { IfErr result (RefusesScript text.now) }
{
    if text.len() > MAX_SCRIPT {
        return Err(ScriptError::Refused(0));
    }
    match make_script(alloc, text) {
        Err(ScriptError::Memory) => Err(fault_of(alloc, text)),
        answer => answer,
    }
}

// The same, but that want of memory may stand for a fault.
fn make_script(alloc: Global, text: &[u8]) -> Result<Script, ScriptError>
    requires { length text.now ≤ max_script }
    ensures script { IfOk result (IsScript text.now) }
    ensures refused { IfErr result (RefusesKnown text.now) }
{
    let mut script = Script::empty(alloc)?;
    let count = script.take_lines(alloc, text)?;
    if fits(&script.config) {
        Ok(script)
    } else {
        Err(ScriptError::Refused(count + 1))
    }
}

impl Script {
    // What is asked for before the first line.
    fn empty(alloc: Global) -> Result<Script, Memory>
        ensures { IfOk result (λ s. s ≡ empty_script) }
    {
        Ok(Script {
            requests: Vec::new(alloc),
            config: default_config(alloc)?,
            rounds: None,
            step: 10,
            schedule: Vec::new(alloc),
        })
    }

    // Takes the lines of a text, one after another, and counts them. After an `Err` it isn't used any more.
    fn take_lines(&mut self, alloc: Global, text: &[u8]) -> Result<usize, ScriptError>
        ensures taken { IfOk result (λ n. AreTaken (lines text.now) self.old self.new) }
        ensures count { IfOk result (λ n. n ≡ length (lines text.now)) }
        ensures bound { IfOk result (λ n. n ≤ length text.now) }
        ensures refused { IfErr result (RefusesLines IsTaken text.now self.old) }
    {
        let mut rest = text;
        let mut count = 0;
        while !rest.is_empty() {
            let (line, behind) = cut_line(rest);
            count += 1;
            match self.take_line(alloc, line) {
                Ok(()) => {}
                Err(Untaken::Refused) => return Err(ScriptError::Refused(count)),
                Err(Untaken::Memory) => return Err(ScriptError::Memory),
            }
            rest = behind;
        }
        Ok(count)
    }
}
