//! What the parts of a tampering expression say together.

ghost use Rattle.std.specs.Prelude.{◌≡◌, map, option_map, None};
ghost use Rattle.std.specs.Option.{option_or};
ghost use Rattle.tr_expr.specs.Parts.{part_of, part_causes, error_in, retval_in, signal_in, when_in};
ghost use Rattle.tr_expr.specs.Sets.{pieces};
ghost use Rattle.tr_expr.specs.Rules.{result_by, whole_causes};
ghost use Rattle.tr_expr.specs.Faults.{found, sooner};
ghost use Rattle.tr_expr.specs.Whens.{view};
ghost use Rattle.tr_expr.specs.Saids.{IsSaidBy, shown};

use crate::fault::ExprFault;
use crate::occurrences::read_when;
use crate::part::{self, Part, read_part};
use crate::rule::InjectParts;
use lx_abi::{Signal, When};

/// What the parts so far say, and the fault that is found first.
#[derive(Clone, Copy, Debug)]
pub(crate) struct Said {
    pub(crate) fault: Option<ExprFault>,
    pub(crate) error: Option<i64>,
    pub(crate) retval: Option<i64>,
    pub(crate) signal: Option<Signal>,
    pub(crate) when: Option<When>,
}

impl Said {
    pub(crate) const NOTHING: Said = Said {
        fault: None,
        error: None,
        retval: None,
        signal: None,
        when: None,
    };

    fn take(&mut self, part: Part<'_>)
        ensures found { self.new.fault ≡ found self.old.fault (part_causes (shown part.entry)) }
        ensures error { self.new.error ≡ option_or (error_in (shown part.entry)) self.old.error }
        ensures retval { self.new.retval ≡ option_or (retval_in (shown part.entry)) self.old.retval }
        ensures signal { self.new.signal ≡ option_or (signal_in (shown part.entry)) self.old.signal }
        ensures when { option_map view self.new.when
            ≡ option_or (when_in (shown part.entry)) (option_map view self.old.when) }
    {
        match part {
            Part::Error(value) => match part::errno(value) {
                Ok(errno) => self.error = Some(-(errno as i64)),
                Err(fault) => self.fault = Some(fault.after(self.fault)),
            },
            Part::Retval(value) => match part::retval(value) {
                Ok(retval) => self.retval = Some(retval as i64),
                Err(fault) => self.fault = Some(fault.after(self.fault)),
            },
            Part::Signal(value) => match part::signal(value) {
                Ok(signal) => self.signal = Some(signal),
                Err(fault) => self.fault = Some(fault.after(self.fault)),
            },
            Part::When(value) => match read_when(value) {
                Some(when) => self.when = Some(when),
                None => self.fault = Some(ExprFault::BadWhen.after(self.fault)),
            },
            Part::Unknown => self.fault = Some(ExprFault::UnknownPart.after(self.fault)),
        }
    }

    /// The result that replaces a call's own.
    pub(crate) fn result(&self, form: InjectParts) -> Option<i64>
        ensures { result ≡ result_by form self.now.error self.now.retval }
    {
        self.error.or(self.retval).or(form.usual_result())
    }

    /// The fault that is found first, of the parts together too.
    pub(crate) fn refusal(&self, form: InjectParts) -> Option<ExprFault>
        ensures { result
            ≡ found self.now.fault (whole_causes form self.now.error self.now.retval self.now.signal) }
    {
        match (self.error, self.retval) {
            (Some(_), Some(_)) => Some(ExprFault::BothResults.after(self.fault)),
            _ if self.result(form).is_none() && self.signal.is_none() => {
                Some(ExprFault::NothingToDo.after(self.fault))
            }
            _ => self.fault,
        }
    }
}

/// What parts say that are joined by colons.
pub(crate) fn said_by(form: InjectParts, parts: &str) -> Said
    ensures { IsSaidBy (map (part_of form) (pieces 58 parts.now)) result }
{
    let mut said = Said::NOTHING;
    for part in parts.split(':') {
        said.take(read_part(form, part));
    }
    said
}

/// Why a part is refused by itself.
pub(crate) fn part_fault(form: InjectParts, part: &str) -> Option<ExprFault>
    ensures { result ≡ found None (part_causes (part_of form part.now)) }
{
    let mut said = Said::NOTHING;
    said.take(read_part(form, part));
    said.fault
}
