//! Examples of the definitions, which the prover checks.

ghost use Rattle.jsonb_path.specs.Examples.{DescendantExamples, FilterExamples, MemberExamples};
ghost use Rattle.jsonb_path.specs.Examples.{NumberExamples, SubscriptExamples, TestExamples, TextExamples};

// Examples of what the definitions say.
fn examples()
    ensures member { MemberExamples }
    ensures subscript { SubscriptExamples }
    ensures descendant { DescendantExamples }
    ensures filter { FilterExamples }
    ensures test { TestExamples }
    ensures number { NumberExamples }
    ensures text { TextExamples }
{}
