ghost use Rattle.std.specs.Prelude.{◌≡◌, IfOk, None};
ghost use Rattle.bf_world.specs.Worlds.{WorldState};
ghost use Rattle.rel_grammar.specs.Views.{shown};
ghost use Rattle.rel_sources.specs.declared.scene.Scene.{Scene};
ghost use Rattle.rel_nodes.specs.Meaning.{mean};
ghost use Rattle.rel_nodes.specs.Nodes.{rest};
ghost use Rattle.rel_nodes.specs.Spans.{span_of_node};
ghost use Rattle.rel_types.specs.Views.{shown_node};
ghost use Rattle.rel_eval.specs.declared.cursor.State.{State};
ghost use Rattle.rel_eval.specs.Answers.{Prepares, PreparesTree};
ghost use Rattle.rel_eval.specs.Cursors.{alone, cursor_rest};
ghost use Rattle.rel_eval.specs.Cuts.{meaning};
ghost use Rattle.rel_eval.specs.Questions.{plan_of};

use crate::cursor::Cursor;
use crate::refusal::Refusal;
use rel_grammar::{Tree, parse};
use rel_inspect::Scene;
use rel_lexer::{Place, tokens};
use rel_nodes::{Node, begin, span};
use rel_types::{Plan, check};
use std::alloc::{AllocError, Global};

/// A question that was prepared.
#[derive(Drop)]
pub struct Question {
    plan: Plan,
}

/// Prepares a question from its text. A text that the lexer refuses is refused with its first fault, one whose tokens the parser
/// refuses with the first that is wrong, and one that isn't well typed with the first fault in the order of checking.
pub fn prepare(alloc: Global, text: &[u8]) -> Result<Question, Refusal>
    ensures { Prepares text.now result }
{
    let tokens = tokens(alloc, text)?;
    let tree = parse(alloc, &tokens)?;
    prepare_tree(alloc, &tree)
}

/// Prepares a question from any tree. One that isn't well typed is refused with the first fault in the order of checking.
pub fn prepare_tree(alloc: Global, tree: &Tree) -> Result<Question, Refusal>
    ensures { PreparesTree (shown tree.now) result }
{
    let plan = check(alloc, tree)?;
    Ok(Question { plan })
}

impl Question {
    /// Its plan.
    pub fn plan(&self) -> &Plan
        ensures { result.now ≡ self.now.plan }
    {
        &self.plan
    }

    /// The place from the first token of the question to its last.
    pub fn span(&self) -> Place
        ensures { result ≡ span_of_node (plan_of self.now) }
    {
        span(self.plan.root())
    }

    /// The same question once more.
    pub fn copy(&self) -> Result<Question, AllocError>
        ensures { IfOk result (λ question. plan_of question ≡ plan_of self.now) }
    {
        let plan = self.plan.copy()?;
        Ok(Question { plan })
    }

    /// A cursor at the start of what the question gives in a scene. It keeps a copy of the scene.
    pub fn open(&self, alloc: Global, scene: &Scene) -> Result<Cursor, AllocError>
        ensures rest { IfOk result (λ cursor. (w : WorldState) → cursor_rest w cursor ≡ meaning w scene.now (plan_of self.now)) }
        ensures open { IfOk result (λ cursor. cursor.state ≡ State.Open) }
    {
        let kept = scene.copy()?;
        let node = begun(alloc, self.plan.root())?;
        Ok(Cursor::new(alloc, node, kept))
    }
}

/// The node of a plan, at its beginning.
fn begun(alloc: Global, plan: &rel_types::Node) -> Result<Node, AllocError>
    ensures { IfOk result (λ node. (w : WorldState) (s : Scene) → rest w s node alone ≡ mean w s (shown_node plan.now) None) }
{
    let mut node = begin(alloc, plan)?;
    node.reset();
    Ok(node)
}
