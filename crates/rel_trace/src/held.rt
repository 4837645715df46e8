ghost use Rattle.std.specs.Prelude.{◌≡◌, IfOk};
ghost use Rattle.rel_value.specs.Operands.{IsSound};
ghost use Rattle.rel_value.specs.Plain.{boolean, integer, interval};
ghost use Rattle.rel_value.specs.Views.{shown};
ghost use Rattle.rel_trace.specs.Trace.{is_false, is_true};

use rel_value::Value;
use std::alloc::AllocError;
use std::marker::Model;

/// A value that every call on values takes: a part lies in its text, between characters, no text has 2^32 bytes, and a time or a
/// date is a moment. Contracts see the plain value.
#[derive(Drop)]
pub struct Held {
    value: Value,
}

impl Model for Held {
    ghost use Rattle.rel_value.specs.Plain.{Plain};
    ghost use Rattle.rel_trace.specs.Codes.{coded_plain};

    ghost Value = { Plain };

    ghost coded = { coded_plain };

    ghost use Rattle.rel_value.specs.Operands.{IsSound};
    ghost use Rattle.rel_value.specs.Views.{shown};

    ghost view = { λ h. shown h.value };

    ghost invariant = { λ h. IsSound (shown h.value) };
}

impl Held {
    /// Holds a value.
    pub fn new(value: Value) -> Held
        requires { IsSound (shown value) }
        ensures { result ≡ shown value }
    {
        Held { value }
    }

    /// The value.
    pub fn value(&self) -> &Value
        ensures same { shown result.now ≡ self.now }
        ensures sound { IsSound (shown result.now) }
    {
        &self.value
    }

    /// Gives the value up.
    pub fn into_value(self) -> Value
        ensures same { shown result ≡ self }
        ensures sound { IsSound (shown result) }
    {
        self.value
    }

    /// The same value once more. The error is want of memory.
    pub fn copy(&self) -> Result<Held, AllocError>
        ensures { IfOk result (λ held. held ≡ self.now) }
    {
        let value = self.value.copy()?;
        Ok(Held { value })
    }

    /// Whether it is True.
    pub fn is_true(&self) -> bool
        ensures { result ≡ is_true self.now }
    {
        match &self.value {
            Value::Boolean(truth) => *truth,
            _ => false,
        }
    }

    pub(crate) fn is_false(&self) -> bool
        ensures { result ≡ is_false self.now }
    {
        match &self.value {
            Value::Boolean(truth) => !*truth,
            _ => false,
        }
    }

    pub(crate) fn boolean(truth: bool) -> Held
        ensures { result ≡ boolean truth }
    {
        Held {
            value: Value::Boolean(truth),
        }
    }

    pub(crate) fn integer(number: i64) -> Held
        ensures { result ≡ integer number }
    {
        Held {
            value: Value::Integer(number),
        }
    }

    pub(crate) fn interval(seconds: i64) -> Held
        ensures { result ≡ interval seconds }
    {
        Held {
            value: Value::Interval(seconds),
        }
    }
}
