ghost use Rattle.std.specs.Prelude.{◌≡◌, IfOk, OnErr};
ghost use Rattle.rel_value.specs.Plain.{more_parts, no_parts};
ghost use Rattle.rel_value.specs.Views.{shown, shown_parts, value_items};

use crate::Version;
use rel_lexer::Text;
use std::alloc::{AllocError, Global};

/// What an expression gives.
#[cycle(value)]
#[derive(Drop)]
pub enum Value {
    Boolean(bool),
    Integer(i64),
    Text(Text),
    /// The bytes of `whole` from `from` up to, and without, `to`.
    Part { whole: Text, from: u32, to: u32 },
    /// Seconds since 1970-01-01 00:00:00 UTC, from 0 to 137,438,953,472 (2^37).
    Time(i64),
    /// Seconds.
    Interval(i64),
    Version(Version),
    /// The path.
    File(Text),
    /// The path.
    Folder(Text),
    Client,
    /// The date is a moment, as of a time.
    Setting { name: Text, value: Text, date: i64 },
    /// The name.
    Process(Text),
    Package { name: Text, version: Version },
    System { name: Text, version: Version },
    Action,
    Tuple(Values),
}

/// Two values or more, in their order.
#[cycle(value)]
#[derive(Drop)]
pub struct Values {
    pub(crate) items: Vec<Value>,
}

impl Values {
    /// The list of two values.
    pub fn pair(alloc: Global, first: Value, second: Value) -> Result<Values, AllocError>
        ensures { IfOk result (λ list. shown_parts list ≡ more_parts (more_parts no_parts (shown first)) (shown second)) }
    {
        let mut items = Vec::new(alloc);
        items.push(first)?;
        items.push(second)?;
        Ok(Values { items })
    }

    /// Lengthens the list. At an error nothing is added.
    pub fn push(&mut self, next: Value) -> Result<(), AllocError>
        ensures ok { IfOk result (λ _. shown_parts self.new ≡ more_parts (shown_parts self.old) (shown next)) }
        ensures err { OnErr result (shown_parts self.new ≡ shown_parts self.old) }
    {
        self.items.push(next)?;
        Ok(())
    }

    pub fn as_slice(&self) -> &[Value]
        ensures { result.now ≡ value_items self.now }
    {
        self.items.as_slice()
    }

    /// The same values once more.
    #[cycle(copy_value)]
    pub fn copy(&self) -> Result<Values, AllocError>
        ensures { IfOk result (λ list. shown_parts list ≡ shown_parts self.now) }
    {
        let mut items = Vec::new(*self.items.allocator());
        for value in self.items.iter() {
            items.push(value.copy()?)?;
        }
        Ok(Values { items })
    }
}

impl Value {
    /// The same value once more.
    #[cycle(copy_value)]
    pub fn copy(&self) -> Result<Value, AllocError>
        ensures { IfOk result (λ value. shown value ≡ shown self.now) }
    {
        match self {
            Value::Boolean(truth) => Ok(Value::Boolean(*truth)),
            Value::Integer(number) => Ok(Value::Integer(*number)),
            Value::Text(text) => Ok(Value::Text(text.copy()?)),
            Value::Part { whole, from, to } => Ok(Value::Part {
                whole: whole.copy()?,
                from: *from,
                to: *to,
            }),
            Value::Time(moment) => Ok(Value::Time(*moment)),
            Value::Interval(seconds) => Ok(Value::Interval(*seconds)),
            Value::Version(version) => Ok(Value::Version(version.copy())),
            Value::File(path) => Ok(Value::File(path.copy()?)),
            Value::Folder(path) => Ok(Value::Folder(path.copy()?)),
            Value::Client => Ok(Value::Client),
            Value::Setting { name, value, date } => Ok(Value::Setting {
                name: name.copy()?,
                value: value.copy()?,
                date: *date,
            }),
            Value::Process(name) => Ok(Value::Process(name.copy()?)),
            Value::Package { name, version } => Ok(Value::Package {
                name: name.copy()?,
                version: version.copy(),
            }),
            Value::System { name, version } => Ok(Value::System {
                name: name.copy()?,
                version: version.copy(),
            }),
            Value::Action => Ok(Value::Action),
            Value::Tuple(parts) => Ok(Value::Tuple(parts.copy()?)),
        }
    }
}
