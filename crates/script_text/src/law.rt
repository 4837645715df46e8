ghost use Rattle.std.specs.Prelude.{◌≡◌, ℕ, List, Result, map};
ghost use Rattle.script_text.specs.declared.error.ScriptError.{ScriptError};
ghost use Rattle.script_text.specs.declared.line.Line.{Line};
ghost use Rattle.script_text.specs.declared.tree.ArmList.{ArmList};
ghost use Rattle.script_text.specs.declared.tree.Statement.TheVariants.{Do, If};
ghost use Rattle.script_text.specs.declared.tree.StatementList.{StatementList};
ghost use Rattle.script_text.specs.Refusals.{TellsLineOf};
ghost use Rattle.script_text.specs.Scripts.{PlainScript, IsVerdict};
ghost use Rattle.script_text.specs.Trees.{act, choice, no_arms, no_statements};
ghost use Rattle.script_text.specs.Views.{arm_items, armed, listed, shown_arm, shown_arms, shown_statement, shown_statements, statement_items};

/// Lines are one thing: one script, or none for one cause.
pub fn one_verdict()
    ensures { (lines : List (List ℕ)) (x y : Result PlainScript ScriptError)
        → IsVerdict lines x → IsVerdict lines y → x ≡ y }
{}

/// The line that is told of lines that are no script is one of them.
pub fn an_error_tells_one_of_the_lines()
    ensures { (lines : List (List ℕ)) (error : ScriptError) → IsVerdict lines (Err error) → TellsLineOf lines error }
{}

/// Statements show what each of them shows, in their order.
pub fn statements_show_each()
    ensures { (list : StatementList)
        → shown_statements list ≡ listed no_statements (map shown_statement (statement_items list)) }
{}

/// Arms show what each of them shows, in their order.
pub fn arms_show_each()
    ensures { (list : ArmList) → shown_arms list ≡ armed no_arms (map shown_arm (arm_items list)) }
{}

/// A statement shows what its parts show.
pub fn a_statement_shows_its_parts()
    ensures line { (line : ℕ) (what : Line) → shown_statement (Do line what) ≡ act line what }
    ensures choice { (arms : ArmList) (other : StatementList)
        → shown_statement (If arms other) ≡ choice (shown_arms arms) (shown_statements other) }
{}
