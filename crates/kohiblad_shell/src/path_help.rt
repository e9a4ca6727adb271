//! What the help says of paths.

/// The language of paths, with an example of each form.
pub const PATH_HELP: &str = "Paths are those of SQL/JSON, in single quotes:
  $.a                            the member \"a\"
  $.\"unit price\"                 a member whose name is more than a word
  $.a.b                          the member \"b\" of the member \"a\"
  $.*                            the values of all members
  $[0]   $[last]   $[last - 1]   the first item, the last one, the one before it
  $[0 to 1]   $[*]               the first two items, and all
  $.**   $.**{1}                 the value and all values in it, and those one level down
  $[*] ? (@ > 7)                 the items of which a test is true
  $.a ? (@.b > 1).c              the members \"c\" of these
  $[*] ? (@.a == @.b)            <, <=, >, >=, == and != compare numbers, texts and booleans
  $[*] ? (@ == 7 || @ == 9)      && is and, || is or, !(..) is not
  $[*] ? (exists(@.a))           the items that have a member \"a\"
  $[*] ? (@ starts with \"ab\")    the texts that begin so
  $.total > 100                  a test alone: true, false or null
  $.a + $.b - 1                  +, -, * and %, exact
  $.a.size()   $.a.type()        how many items, and the kind; also .abs(), .floor(), .ceiling()
  $.keyvalue().key               the names of the members
  strict $.a                     what is not there is an error
Of an array, steps to members and filters ask each item, unless the path is strict.";
