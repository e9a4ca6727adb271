//! Examples of the definitions, which the prover checks.

ghost use Rattle.jsonb_functions.specs.Examples.{ChangedExamples, ContainmentExamples};
ghost use Rattle.jsonb_functions.specs.Examples.{PathExamples, PathTexts};

// Examples of what the definitions say.
fn examples()
    ensures paths { PathExamples }
    ensures path_texts { PathTexts }
    ensures containment { ContainmentExamples }
    ensures changed { ChangedExamples }
{}
