//! What a line makes of a script.

ghost use Rattle.std.specs.Prelude.{◌≡◌, Some, None, OnOk, IfErr};
ghost use Rattle.http_header.specs.Token.{IsToken, lowercase};
ghost use Rattle.qh_grammar.specs.Uri.{IsUri};
ghost use Rattle.qh_spec.specs.Message.{target_of};
ghost use Rattle.qh_spec.specs.Script.{Script as PlainScript, applied, set_number, IsTaken};
ghost use Rattle.qh_spec.specs.ScriptLine as says;
ghost use Rattle.qh_script.specs.declared.line.Line.TheVariants.{Request, Disturb};
ghost use Rattle.qh_script.specs.Line.{HasMeaning, HasUpset, IsNamed};
ghost use Rattle.qh_script.specs.Script.{Makes, MakesNone, WhenRefused};

use super::Script;
use super::last::{add_field, add_trailer, fill_body, set_body};
use super::owned::{method_of, name_of, upset_of, uri_of, value_of};
use super::settings::{set_config, set_rounds, set_step};
use super::untaken::Untaken;
use crate::line::{Disturbance, Line, read_line};
use http::Method;
use http_uri::Uri;
use qh_base::Memory;
use qh_service::Message;
use qh_spec::{Setting, Upset};
use std::alloc::Global;

impl Script {
    /// What the text makes of it, where it is a line that is taken. After an `Err` it isn't used any more.
    pub(super) fn take_line(&mut self, alloc: Global, text: &[u8]) -> Result<(), Untaken>
        ensures taken { OnOk result (IsTaken text.now self.old self.new) }
        ensures refused { IfErr result (λ e. WhenRefused e ((t : PlainScript) → IsTaken text.now self.old t → ⊥)) }
    {
        match read_line(text) {
            Some(line) => self.apply(alloc, line),
            None => Err(Untaken::Refused),
        }
    }

    // What the line makes of it.
    fn apply(&mut self, alloc: Global, line: Line) -> Result<(), Untaken>
        requires { HasMeaning line }
        ensures taken { OnOk result (Makes line.entry self.old self.new) }
        ensures refused { IfErr result (λ e. WhenRefused e (MakesNone line.entry self.old)) }
    {
        match line {
            Line::Empty => {}
            Line::Request { method, uri } => self.add_request(alloc, method, uri)?,
            Line::Field { name, value } => return self.add_field(alloc, name, value),
            Line::Trailer { name, value } => return self.add_trailer(alloc, name, value),
            Line::Body(text) => return self.set_body(text),
            Line::Fill(n) => return self.fill_body(alloc, n),
            Line::Set(setting, n) => self.set(setting, n),
            Line::RetryOn => self.config.retry = true,
            Line::GreaseOff => self.config.send_grease = false,
            Line::Disturb(disturbance) => self.disturb(alloc, disturbance)?,
        }
        Ok(())
    }

    fn add_request(&mut self, alloc: Global, method: &[u8], uri: &[u8]) -> Result<(), Memory>
        requires method { IsToken method.now }
        requires uri { IsUri uri.now }
        ensures { OnOk result (Makes (Request method.entry uri.entry) self.old self.new) }
    {
        let method = method_of(alloc, method)?;
        let uri = uri_of(alloc, uri)?;
        self.push_request(alloc, method, uri)?;
        Ok(())
    }

    fn push_request(&mut self, alloc: Global, method: Method, uri: Uri) -> Result<(), Memory>
        ensures { OnOk result (applied (says.Request method (target_of uri)) self.old ≡ Some self.new) }
    {
        self.requests.push(Message::request(alloc, method, uri)?)?;
        Ok(())
    }

    fn add_field(&mut self, alloc: Global, name: &[u8], value: &[u8]) -> Result<(), Untaken>
        requires { IsNamed name.now value.now }
        ensures taken { OnOk result (applied (says.Field (lowercase name.now) value.now) self.old ≡ Some self.new) }
        ensures refused { IfErr result (λ e. WhenRefused e (applied (says.Field (lowercase name.now) value.now) self.old ≡ None)) }
    {
        let name = name_of(alloc, name)?;
        let value = value_of(alloc, value)?;
        add_field(&mut self.requests, name, value)
    }

    fn add_trailer(&mut self, alloc: Global, name: &[u8], value: &[u8]) -> Result<(), Untaken>
        requires { IsNamed name.now value.now }
        ensures taken { OnOk result (applied (says.Trailer (lowercase name.now) value.now) self.old ≡ Some self.new) }
        ensures refused { IfErr result (λ e. WhenRefused e (applied (says.Trailer (lowercase name.now) value.now) self.old ≡ None)) }
    {
        let name = name_of(alloc, name)?;
        let value = value_of(alloc, value)?;
        add_trailer(alloc, &mut self.requests, name, value)
    }

    fn set_body(&mut self, body: &[u8]) -> Result<(), Untaken>
        ensures taken { OnOk result (applied (says.Body body.now) self.old ≡ Some self.new) }
        ensures refused { IfErr result (λ e. WhenRefused e (applied (says.Body body.now) self.old ≡ None)) }
    {
        set_body(&mut self.requests, body)
    }

    fn fill_body(&mut self, alloc: Global, n: u64) -> Result<(), Untaken>
        ensures taken { OnOk result (applied (says.Fill n) self.old ≡ Some self.new) }
        ensures refused { IfErr result (λ e. WhenRefused e (applied (says.Fill n) self.old ≡ None)) }
    {
        fill_body(alloc, &mut self.requests, n)
    }

    fn set(&mut self, setting: Setting, n: u64)
        ensures { self.new ≡ set_number setting n self.old }
    {
        set_config(&mut self.config, setting, n);
        self.rounds = set_rounds(self.rounds, setting, n);
        self.step = set_step(self.step, setting, n);
    }

    fn disturb(&mut self, alloc: Global, disturbance: Disturbance) -> Result<(), Memory>
        requires { HasUpset disturbance }
        ensures { OnOk result (Makes (Disturb disturbance.entry) self.old self.new) }
    {
        let upset = upset_of(alloc, disturbance)?;
        self.push_upset(upset)?;
        Ok(())
    }

    fn push_upset(&mut self, upset: Upset) -> Result<(), Memory>
        ensures { OnOk result (applied (says.Disturb upset) self.old ≡ Some self.new) }
    {
        self.schedule.push(upset)?;
        Ok(())
    }
}
