//! How deep a text nests, before it is read.

ghost use Rattle.std.specs.Prelude.{◌≡◌, ◌↔◌, ◌+◌, ◌≤◌, ◌<◌, ◌^◌, IsTrue};
ghost use Rattle.jsonb_value.specs.Words.{state_after, level_after, text_depth};

// Whether the next character is outside strings, inside one, or after its backslash.
#[derive(Clone, Copy)]
pub enum ScanState {
    Outside,
    Inside,
    Escaped,
}

/// Whether at most that many brackets of the text are open at once. Brackets in strings do not
/// count. This holds of any bytes: the text need not be JSON.
pub fn is_text_within(text: &[u8], depth: usize) -> bool
    ensures { IsTrue result ↔ (text_depth text.now ≤ depth) }
{
    let mut state = ScanState::Outside;
    let mut level = 0;
    for &character in text {
        level = level_after(state, level, character);
        if depth < level {
            return false;
        }
        state = state_after(state, character);
    }
    true
}

// The state after this character.
fn state_after(state: ScanState, character: u8) -> ScanState
    ensures { result ≡ state_after state character }
{
    match (state, character) {
        (ScanState::Outside, b'"') => ScanState::Inside,
        (ScanState::Outside, _) => ScanState::Outside,
        (ScanState::Inside, b'"') => ScanState::Outside,
        (ScanState::Inside, b'\\') => ScanState::Escaped,
        _ => ScanState::Inside,
    }
}

// How many brackets are open after this character.
fn level_after(state: ScanState, level: usize, character: u8) -> usize
    requires { level + 1 < 2 ^ 64 }
    ensures value { result ≡ level_after state level character }
    ensures most { result ≤ level + 1 }
{
    match (state, character) {
        (ScanState::Outside, b'[' | b'{') => level + 1,
        (ScanState::Outside, b']' | b'}') => level.saturating_sub(1),
        _ => level,
    }
}
