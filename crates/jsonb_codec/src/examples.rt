//! Examples of the definitions, which the prover checks.

ghost use Rattle.jsonb_codec.specs.Examples.{CanonicalDocuments, ContainerDocuments, NoDocuments};
ghost use Rattle.jsonb_codec.specs.Examples.{ScalarDocuments, WordExamples};

// Examples of what the definitions say.
fn examples()
    ensures scalars { ScalarDocuments }
    ensures containers { ContainerDocuments }
    ensures no_documents { NoDocuments }
    ensures words { WordExamples }
    ensures canonical { CanonicalDocuments }
{}
