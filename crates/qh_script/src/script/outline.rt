//! Lines that are judged without memory.

ghost use Rattle.std.specs.Prelude.{◌≡◌, ◌≤◌, length, true, false, is_some, Some, IsTrue, IsFalse, IfOk, IfErr};
ghost use Rattle.qh_spec.specs.Script.{Script as PlainScript, empty_script, max_script, set_config as the_config, IsTaken};
ghost use Rattle.qh_script.specs.Line.{HasMeaning};
ghost use Rattle.qh_script.specs.Outline.{AreOutlined, IsFull, IsOneMore, IsOutline, IsOutlined, MakesOutline};
ghost use Rattle.qh_script.specs.Script.{MakesNone, RefusesLine, RefusesScript};

use super::ScriptError;
use super::last::MAX_FIELDS;
use super::lines::cut_line;
use super::settings::set_config;
use crate::Config;
use crate::config::default_with;
use crate::fit::fits_besides;
use crate::line::{Line, read_line};
use qh_spec::Setting;
use std::alloc::Global;
use std::marker::Model;

/// Why a text isn't read for which memory was wanting: its fault, or that want if it has none. It takes no memory.
pub(super) fn fault_of(alloc: Global, text: &[u8]) -> ScriptError
    requires { length text.now ≤ max_script }
    ensures { RefusesScript text.now result }
{
    let mut outline = Outline::empty(alloc);
    match outline.take_lines(text) {
        Ok(count) => {
            if fits_besides(&outline.config) {
                ScriptError::Memory
            } else {
                ScriptError::Refused(count + 1)
            }
        }
        Err(fault) => fault,
    }
}

/// What is kept of a script to judge its lines and its settings.
#[derive(Drop)]
struct Outline {
    /// How many fields and trailers the last request has; None before the first request.
    field_count: Option<usize>,
    /// The settings. There are no versions: no line sets them, and those that count where nothing is said fit.
    config: Config,
}

impl Model for Outline {
    ghost use Rattle.qh_script.specs.Outline.{PlainOutline};

    ghost Value = { PlainOutline };

    ghost view = { λ o. record { field_count = o.field_count; config = o.config } };
}

impl Outline {
    // Before the first line.
    fn empty(alloc: Global) -> Outline
        ensures { IsOutline result empty_script }
    {
        Outline {
            field_count: None,
            config: default_with(Vec::new(alloc)),
        }
    }

    // Takes the lines of a text, one after another, and counts them. After an `Err` it isn't used any more.
    fn take_lines(&mut self, text: &[u8]) -> Result<usize, ScriptError>
        ensures taken { IfOk result (λ n. (s : PlainScript) → IsOutline self.old s → AreOutlined text.now s self.new n) }
        ensures bound { IfOk result (λ n. n ≤ length text.now) }
        ensures refused { IfErr result (λ e. (s : PlainScript) → IsOutline self.old s → RefusesLine IsTaken text.now s e) }
    {
        let mut rest = text;
        let mut count = 0;
        while !rest.is_empty() {
            let (line, behind) = cut_line(rest);
            count += 1;
            if !self.take_line(line) {
                return Err(ScriptError::Refused(count));
            }
            rest = behind;
        }
        Ok(count)
    }

    // Takes the text, if it is a line that is taken.
    fn take_line(&mut self, text: &[u8]) -> bool
        ensures taken { IsTrue result → (s : PlainScript) → IsOutline self.old s → IsOutlined text.now s self.new }
        ensures refused { IsFalse result → (s t : PlainScript) → IsOutline self.old s → IsTaken text.now s t → ⊥ }
    {
        match read_line(text) {
            Some(line) => self.apply(line),
            None => false,
        }
    }

    // Whether the line is taken.
    fn apply(&mut self, line: Line) -> bool
        requires { HasMeaning line }
        ensures taken { IsTrue result → (s : PlainScript) → IsOutline self.old s → MakesOutline line.entry s self.new }
        ensures refused { IsFalse result → (s : PlainScript) → IsOutline self.old s → MakesNone line.entry s }
    {
        match line {
            Line::Empty => true,
            Line::Request { .. } => {
                self.begin_request();
                true
            }
            Line::Field { .. } => self.add_field(),
            Line::Trailer { .. } => self.add_field(),
            Line::Body(_) => self.has_request(),
            Line::Fill(_) => self.has_request(),
            Line::Set(setting, n) => {
                self.set(setting, n);
                true
            }
            Line::RetryOn => {
                self.set_retry();
                true
            }
            Line::GreaseOff => {
                self.set_grease_off();
                true
            }
            Line::Disturb(_) => true,
        }
    }

    // A request more, which has no fields yet.
    fn begin_request(&mut self)
        ensures { self.new ≡ record self.old { field_count = Some 0 } }
    {
        self.field_count = Some(0);
    }

    fn has_request(&self) -> bool
        ensures { result ≡ is_some self.now.field_count }
    {
        self.field_count.is_some()
    }

    fn set(&mut self, setting: Setting, n: u64)
        ensures { self.new ≡ record self.old { config = the_config setting n self.old.config } }
    {
        set_config(&mut self.config, setting, n);
    }

    fn set_retry(&mut self)
        ensures { self.new ≡ record self.old { config = record self.old.config { retry = true } } }
    {
        self.config.retry = true;
    }

    fn set_grease_off(&mut self)
        ensures { self.new ≡ record self.old { config = record self.old.config { send_grease = false } } }
    {
        self.config.send_grease = false;
    }

    // A field or a trailer more in the last request.
    fn add_field(&mut self) -> bool
        ensures config { self.new.config ≡ self.old.config }
        ensures taken { IsTrue result → IsOneMore self.old.field_count self.new.field_count }
        ensures refused { IsFalse result → IsFull self.old.field_count }
    {
        match self.field_count {
            Some(count) => {
                if count >= MAX_FIELDS {
                    return false;
                }
                self.field_count = Some(count + 1);
                true
            }
            None => false,
        }
    }
}
