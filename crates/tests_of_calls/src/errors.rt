// The names of errors.
use jsonb::Error;
use std::test::Fail;

// Errors with their names.
const NAMES: &[(Error, &str)] = &[
    (Error::InvalidEOF, "InvalidEOF"),
    (Error::InvalidJsonb, "InvalidJsonb"),
    (Error::InvalidJsonbHeader, "InvalidJsonbHeader"),
    (Error::InvalidJsonbJEntry, "InvalidJsonbJEntry"),
    (Error::InvalidJsonbNumber, "InvalidJsonbNumber"),
    (Error::InvalidJsonbExtension, "InvalidJsonbExtension"),
    (Error::InvalidUtf8, "InvalidUtf8"),
    (Error::ObjectDuplicateKey, "ObjectDuplicateKey"),
    (Error::InvalidJson, "InvalidJson"),
    (Error::OutOfMemory, "OutOfMemory"),
];

#[test]
fn errors_display_their_names(rt: HostRuntime) -> Result<(), Fail> {
    for &(error, name) in NAMES {
        assert_eq!(rt; error.name(), name);
        assert_eq!(rt; format!(in rt.alloc(); "{error}")?.as_str(), name);
    }
    Ok(())
}
