//! What the program prints in answer to its arguments.

/// What `--help` prints.
pub const USAGE: &str = "\
usage: jsonb_probe [--help | --version]

Calls the library line by line, to compare it with another one. Each line of
standard input names a call and gives its bytes in hexadecimal, and is answered
by one line: what the call answers, or `error` with the name of its error. For
example `item_type 4000000310` is answered by `ok object 3`. docs/CONFORMANCE.md
lists the calls.
";

/// What `--version` prints.
pub const VERSION: &str = "jsonb_probe 0.9.0\n";
