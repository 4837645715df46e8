// Reading a time.
ghost use Rattle.std.specs.Prelude.{ℕ, Option};
ghost use Rattle.rel_value.specs.Casts.{time_read};
ghost use Rattle.rel_value.specs.Outcomes.{Answers};
ghost use Rattle.script_run.specs.Fills.{ReadsTime, ReadsMoment};

use rel_lexer::Text;
use rel_value::{Cast, Value, ValueFault, cast};
use std::alloc::{AllocError, Global};

/// The moment of a time text, if it is one. Each has 31 bytes. The error is want of memory.
pub(crate) fn time_of(alloc: Global, text: Text) -> Result<Option<i64>, AllocError>
    ensures { ReadsTime text result }
{
    if text.as_str().len() != 31 {
        return Ok(None);
    }
    let answer = cast(alloc, Cast::Time, &Value::Text(text), 0);
    moment_of(&answer)
}

/// What a cast to a time answers.
fn moment_of(answer: &Result<Value, ValueFault>) -> Result<Option<i64>, AllocError>
    ensures { (moment : Option ℕ) → Answers (time_read moment) answer.now → ReadsMoment moment result }
{
    match answer {
        Ok(Value::Time(moment)) => Ok(Some(*moment)),
        Err(ValueFault::Memory) => Err(AllocError),
        _ => Ok(None),
    }
}
