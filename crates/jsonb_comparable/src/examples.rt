//! Examples of the definitions, which the prover checks.

ghost use Rattle.jsonb_comparable.specs.Examples.{NumberKeys, TreeKeys};

// Examples of what the definitions say.
fn examples()
    ensures numbers { NumberKeys }
    ensures trees { TreeKeys }
{}
