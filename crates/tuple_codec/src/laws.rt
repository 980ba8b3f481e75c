//! A law of the grammar.

ghost use Rattle.tuple_tree.specs.Values.{IsTuple, IsTemplate};
ghost use Rattle.tuple_codec.specs.Operations.{IsOperation, IsOutcome};
ghost use Rattle.tuple_tree.specs.Spelling.{tuple_spelling, template_spelling};
ghost use Rattle.tuple_codec.specs.Spelling.{operation_spelling, outcome_spelling};
ghost use Rattle.tuple_codec.specs.Laws.{HasOneSpelling};

/// No spelling begins another one of its sort, and each stands for one value. So the bytes after a spelling never
/// change how it is read.
pub fn one_spelling()
    ensures tuples { HasOneSpelling IsTuple tuple_spelling }
    ensures templates { HasOneSpelling IsTemplate template_spelling }
    ensures operations { HasOneSpelling IsOperation operation_spelling }
    ensures outcomes { HasOneSpelling IsOutcome outcome_spelling }
{}
