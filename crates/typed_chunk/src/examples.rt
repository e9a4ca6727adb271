//! Examples of the definitions, which the prover checks.

ghost use Rattle.typed_chunk.specs.Examples.{BooleanChunkExamples, DictionaryExamples};
ghost use Rattle.typed_chunk.specs.Examples.{HeadedExamples};
ghost use Rattle.typed_chunk.specs.Examples.{NumberChunkExamples, PackedExamples};
ghost use Rattle.typed_chunk.specs.Examples.{TextChunkExamples, TextExamples, WidthExamples};

// Examples of what the definitions say.
#[tactic(auto, unfolding(crate::specs::Packed::least_width))]
fn examples()
    ensures packed { PackedExamples }
    ensures widths { WidthExamples }
    ensures headed { HeadedExamples }
    ensures texts { TextExamples }
    ensures dictionary { DictionaryExamples }
    ensures numbers { NumberChunkExamples }
    ensures text_chunks { TextChunkExamples }
    ensures booleans { BooleanChunkExamples }
{}
