//! Examples of the definitions, which the prover checks.

ghost use Rattle.jsonb_value.specs.Examples.{ExtensionPayloads, JsonExponents, JsonTexts};
ghost use Rattle.jsonb_value.specs.Examples.{NumberOrder, NumberPayloads, TreeExamples};
ghost use Rattle.jsonb_value.specs.Examples.{TreeOrderExamples};
ghost use Rattle.jsonb_value.specs.Examples.{TreeTexts, WrittenNumbers};

// Examples of what the definitions say.
fn examples()
    ensures number_payloads { NumberPayloads }
    ensures written_numbers { WrittenNumbers }
    ensures extension_payloads { ExtensionPayloads }
    ensures trees { TreeExamples }
    ensures number_order { NumberOrder }
    ensures tree_order { TreeOrderExamples }
    ensures texts { TreeTexts }
    ensures json { JsonTexts }
    ensures exponents { JsonExponents }
{}
