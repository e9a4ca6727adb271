//! What the arguments of a program ask for.

ghost use Rattle.std.specs.Prelude.{◌≡◌, option_map, string_bytes};
ghost use Rattle.answer_lines.specs.Words.{request_in};

/// What the program is to do.
#[derive(Clone, Copy, Debug, PartialEq, Eq)]
pub enum Request {
    /// Answer lines.
    Run,
    /// Print the usage.
    Help,
    /// Print the version.
    Version,
    /// Refuse its arguments.
    Unknown,
}

/// The request of the first two arguments: none is `Run`, `--help` or `-h` alone is `Help`, and
/// `--version` alone is `Version`.
pub fn request_of(first: Option<String>, second: Option<String>) -> Request
    ensures { result
        ≡ request_in (option_map string_bytes first) (option_map string_bytes second) }
{
    match (first, second) {
        (None, _) => Request::Run,
        (Some(word), None) => {
            let word = word.as_str();
            if word == "--help" || word == "-h" {
                Request::Help
            } else if word == "--version" {
                Request::Version
            } else {
                Request::Unknown
            }
        }
        (Some(_), Some(_)) => Request::Unknown,
    }
}
