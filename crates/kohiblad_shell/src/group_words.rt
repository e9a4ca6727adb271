//! The words that say what is reckoned of groups.

ghost use Rattle.std.specs.Prelude.{◌≡◌, ◌≤◌, length};
ghost use Rattle.kohiblad_shell.specs.GroupWords.{IsMemberName, aggregate_words};

/// How many of these words, from the first on, say aggregates: `count`, or `sum` and the word after
/// it.
pub fn aggregate_words(words: &[&str]) -> usize
    ensures count { result ≡ aggregate_words words.now }
    ensures within { result ≤ length words.now }
{
    let mut count = 0;
    let mut left = words;
    while let [word, rest @ ..] = left {
        if *word == "count" {
            count += 1;
            left = rest;
        } else if *word == "sum" {
            let [_, later @ ..] = rest else {
                return count;
            };
            count += 2;
            left = later;
        } else {
            return count;
        }
    }
    count
}

/// The name of the member of a path: its text without `$.` before it, and `value` for `$` alone.
pub fn member_name(path: &str) -> &str
    ensures { IsMemberName path.now result.now }
{
    match path.strip_prefix("$.") {
        Some(rest) => rest,
        None if path == "$" => "value",
        None => path,
    }
}
