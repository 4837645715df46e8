// What is made of the value to the left.
ghost use Rattle.std.specs.Prelude.{◌≡◌, IfOk};
ghost use Rattle.rel_nodes.specs.Core.{Alike, cast_arrow, casted_core, infix_core, left_core, sign_arrow};
ghost use Rattle.rel_nodes.specs.Nodes.{boxed_shape};
ghost use Rattle.rel_nodes.specs.Runs.{run_core};

use crate::make::{pure, with_one, with_two};
use crate::runs::{Joint, Run};
use crate::{Node, Pure};
use rel_lexer::{BinarySign, Place};
use rel_trace::{Logic, One, Two};
use rel_types::{CastStep, CastSteps};
use std::alloc::{AllocError, Global};

fn left(alloc: Global) -> Result<Box<Node>, AllocError>
    ensures { IfOk result (λ n. boxed_shape n ≡ left_core) }
{
    pure(alloc, Pure::Left)
}

fn cast_arrow(alloc: Global, step: &CastStep) -> Result<Box<Node>, AllocError>
    ensures { IfOk result (λ n. boxed_shape n ≡ cast_arrow step.now) }
{
    with_one(alloc, left(alloc)?, One::cast(step.cast, step.place))
}

/// Casts of what a node gives, the first one first.
pub(crate) fn casted(
    alloc: Global,
    casts: &CastSteps,
    part: Box<Node>,
) -> Result<Box<Node>, AllocError>
    ensures { IfOk result (λ n. Alike (boxed_shape n) (casted_core casts.now (boxed_shape part))) }
{
    let mut run = Run::new(alloc, Joint::Left, part);
    for step in casts.as_slice() {
        let arrow = cast_arrow(alloc, step)?;
        run = run.with(alloc, Joint::Left, arrow)?;
    }
    run.whole(alloc)
}

/// A sign other than `|` with its right operand.
fn sign_arrow(
    alloc: Global,
    sign: BinarySign,
    place: Place,
    right: Box<Node>,
) -> Result<Box<Node>, AllocError>
    ensures { IfOk result (λ n. boxed_shape n ≡ sign_arrow sign place (boxed_shape right)) }
{
    match sign {
        BinarySign::And => with_two(alloc, left(alloc)?, right, Two::logical(Logic::And)),
        BinarySign::Or => with_two(alloc, left(alloc)?, right, Two::logical(Logic::Or)),
        _ => with_one(alloc, right, One::sign(sign, place)),
    }
}

/// A run of operands with one more sign and its right operand.
pub(crate) fn linked(
    alloc: Global,
    run: Run,
    sign: BinarySign,
    place: Place,
    right: Box<Node>,
) -> Result<Run, AllocError>
    ensures { IfOk result (λ r. Alike (run_core r) (infix_core sign place (run_core run) (boxed_shape right))) }
{
    match sign {
        BinarySign::Bar => run.with(alloc, Joint::Bar, right),
        _ => {
            let arrow = sign_arrow(alloc, sign, place, right)?;
            run.with(alloc, Joint::Left, arrow)
        }
    }
}
