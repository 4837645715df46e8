// What holds of the grammar itself.
ghost use Rattle.std.specs.Prelude.{◌≡◌, ◌≢◌, ◌++◌, List, ℕ, Option, Result, Err, map};
ghost use Rattle.std.specs.declared.alloc.Global.{Global};
ghost use Rattle.std.specs.declared.boxed.Box.{Box};
ghost use Rattle.rel_lexer.specs.declared.place.Place.{Place};
ghost use Rattle.rel_grammar.specs.Answers.{IsTreeOf, Parsed};
ghost use Rattle.rel_grammar.specs.Grammar.{Question};
ghost use Rattle.rel_grammar.specs.Holding.{shown_held};
ghost use Rattle.rel_grammar.specs.Sentences.{Sentence, question_marks};
ghost use Rattle.rel_grammar.specs.Shapes.{Shaped};
ghost use Rattle.rel_grammar.specs.Spelling.{Mark, shapes_of};
ghost use Rattle.rel_grammar.specs.Trees.{Plain, no_links, no_parts, phrase};
ghost use Rattle.rel_grammar.specs.Views.{link_items, linked, parted, shown, shown_link, shown_links, shown_parts, tree_items};
ghost use Rattle.rel_grammar.specs.declared.error.ParseError.{ParseError};
ghost use Rattle.rel_grammar.specs.declared.error.ParseError.TheVariants.{Memory};
ghost use Rattle.rel_grammar.specs.declared.tree.LinkList.{LinkList};
ghost use Rattle.rel_grammar.specs.declared.tree.Tree.{Tree};
ghost use Rattle.rel_grammar.specs.declared.tree.Tree.TheVariants.{Phrase};
ghost use Rattle.rel_grammar.specs.declared.tree.TreeList.{TreeList};

/// No tokens have two readings.
pub fn one_reading()
    ensures { (tokens : List Shaped) (p q : Question) → Sentence tokens p → Sentence tokens q → p ≡ q }
{}

/// How deep a token stands is fixed by the tokens up to it.
pub fn one_depth()
    ensures { (p q : Question) (a b x y : List Mark) → question_marks p ≡ a ++ x → question_marks q ≡ b ++ y
        → shapes_of a ≡ shapes_of b → a ≡ b }
{}

/// Tokens have no two trees, no two refusals, and not both a tree and a refusal, beside want of memory.
pub fn parsed_in_one_way()
    ensures { (end : ℕ) (tokens : List Shaped) (a b : Result Plain ParseError) → a ≢ Err Memory → b ≢ Err Memory
        → Parsed end tokens a → Parsed end tokens b → a ≡ b }
{}

/// A text has one tree, if it has one.
pub fn one_tree()
    ensures { (text : List ℕ) (a b : Plain) → IsTreeOf text a → IsTreeOf text b → a ≡ b }
{}

/// A name in memory shows its place, its words and its parts, and a list in memory what its items show, in their order.
pub fn what_trees_show()
    ensures name { (place : Place) (words : List ℕ) (argument filter object : Option (Box Tree Global))
        → shown (Phrase place words argument filter object)
        ≡ phrase place words (shown_held argument) (shown_held filter) (shown_held object) }
    ensures links { (list : LinkList) → shown_links list ≡ linked no_links (map shown_link (link_items list)) }
    ensures parts { (list : TreeList) → shown_parts list ≡ parted no_parts (map shown (tree_items list)) }
{}
