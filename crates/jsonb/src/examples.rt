//! Examples of the definitions, which the prover checks.

ghost use Rattle.jsonb.specs.Examples.{BuiltExamples, ItemExamples, KindExamples, LookupExamples};
ghost use Rattle.jsonb.specs.Examples.{MeaningExamples};

// Examples of what the definitions say.
fn examples()
    ensures kinds { KindExamples }
    ensures items { ItemExamples }
    ensures look_ups { LookupExamples }
    ensures meanings { MeaningExamples }
    ensures built { BuiltExamples }
{}
